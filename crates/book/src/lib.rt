//! The book: entries end to end in lent memory.
#![tactic(auto)]

pub mod book;
pub mod calls;
pub mod cut;
pub mod entry;
pub mod lay;
pub mod stored;
