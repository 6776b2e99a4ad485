//! FrodoKEM keys: values, sums of shares, rows of A, and B = A·S + E.
#![tactic(auto)]

pub mod kept;
pub mod product;
pub mod rows;
pub mod sums;
pub mod values;
