//! The ceremony: commit, key, open, in this order, each once. Each step takes the ceremony that the step before it gave; a refused one
//! gives it back as it was.
#![tactic(auto)]

pub mod commit;
mod rebuild;
pub mod stages;
