//! Keccak-f[1600] and the sponge on it: SHAKE256 as a digest maker, and SHAKE128 of a text.
#![tactic(auto)]

pub mod block;
pub mod giving;
pub mod permutation;
pub mod rounds;
pub mod shake128;
pub mod shake256;
pub mod state;
pub mod tables;
pub mod taking;
