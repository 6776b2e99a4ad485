//! Records as bytes: the header's tests in their order, the reader over a record's bytes, and the encoder of a header.
#![tactic(auto)]

pub mod encode;
pub mod header;
pub mod parts;
pub mod reading;
pub mod view;
pub mod whole;
