//! SHA-512, and the digest maker that stretches it to a stream.
#![tactic(auto)]

mod compression;
pub mod hash;
mod hasher;
mod hashing;
pub mod stretched;
pub mod tables;
