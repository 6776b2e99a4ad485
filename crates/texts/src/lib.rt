//! The whole texts 6 and 7, digested by a holder of salt and master.
#![tactic(auto)]

pub mod fronts;
pub mod holder;
