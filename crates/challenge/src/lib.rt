//! Challengers: the two questions of the audit, and what their answers choose.
#![tactic(auto)]

pub mod by_maker;
pub mod challenger;
pub mod flags;
pub mod questions;
pub mod selection;
