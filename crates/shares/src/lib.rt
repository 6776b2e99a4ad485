//! Values and shares, and what one party gives to the texts 6 and 7.
#![tactic(auto)]

pub mod audited;
pub mod drawing;
pub mod kept;
pub mod party;
pub mod product;
pub mod taking;
