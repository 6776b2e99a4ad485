//! What key and open write: the bytes of a key and of a record, into lent output.
#![tactic(auto)]

pub mod bytes;
pub mod key;
