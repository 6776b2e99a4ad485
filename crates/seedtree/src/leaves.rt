//! The leaves of a tree in words, one for each party of a repetition.
ghost use Rattle.std.specs.Prelude.{◌≡◌, ◌+◌, ◌*◌, ◌<◌, ◌≤◌, length};
ghost use Rattle.protocol.specs.Of.{parameters};
ghost use Rattle.protocol.specs.Parameters.{parties};
ghost use Rattle.seedtree.specs.Words.{seed_in};

use crate::repetition::Repetition;
use crate::words::load;

/// The words of a repetition's tree.
// lent words: the tree is a part of one working memory, and there is no heap
#[derive(Clone, Copy)]
pub struct Leaves<'a> {
    pub of: Repetition<'a>,
    pub nodes: &'a [u16],
    ghost room: { 32 * parties (parameters of.header) ≤ length nodes.now },
}

impl Leaves<'_> {
    /// Party j's leaf seed.
    pub fn seed(self, j: usize) -> [u8; 32]
        requires { j < parties (parameters self.of.header) }
        ensures { result ≡ seed_in self.entry.nodes.now (parties (parameters self.entry.of.header) + j) }
    {
        load(self.nodes, self.of.header.parties() + j)
    }
}
