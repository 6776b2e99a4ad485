//! What a reader must believe: refusals, the header of a record, and the definitions that every other crate is proved against (specs/).
#![tactic(auto)]

pub mod fault;
pub mod field;
pub mod header;
pub mod layout;
pub mod report;
pub mod set;
