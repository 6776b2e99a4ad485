//! The tree of seeds of a repetition, in lent sixteen-bit words: grown from its root, or from the siblings of a hidden leaf's path.
#![tactic(auto)]

pub mod leaves;
pub mod repetition;
pub mod tree;
pub mod words;
