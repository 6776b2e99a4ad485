//! A repetition's part of the texts 6 and 7, fed to a maker that holds the text so far: by a holder of salt and master, and by a checker
//! of a record, who has all parties but the hidden one.
#![tactic(auto)]

pub mod checked;
pub mod checker;
pub mod held;
pub mod hidden;
pub mod holder;
pub mod known;
pub mod memory;
pub mod parties;
pub mod rows;
