//! The ranges of a record's body: entries of B and offsets are below q, audited values lie within the bound.
#![tactic(auto)]

pub mod body;
pub mod parts;
