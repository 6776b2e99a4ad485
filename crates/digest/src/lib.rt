//! What a digest maker is, and digests of texts by any maker.
#![tactic(auto)]

pub mod maker;
pub mod parts;
pub mod short;
pub mod shorts;
pub mod text;
