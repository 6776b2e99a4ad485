//! Blocks of a text, and how they go into the state.
ghost use Rattle.std.specs.Prelude.{◌≡◌, ◌+◌, ◌*◌, ◌≤◌, length};
ghost use Rattle.keccak.specs.Sponge.{absorbed};

use crate::permutation::permute;

// Adds a block to the state, and permutes it; the rate is the block's length.
pub(crate) fn absorb<const RATE: usize>(lanes: &mut [u64; 25], block: &[u8; RATE])
    requires { RATE ≤ 200 }
    ensures { lanes.new ≡ absorbed RATE lanes.old block.now }
{
    let (words, _) = block.as_chunks::<8>();
    for (i, word) in words.iter().enumerate() {
        lanes[i] ^= u64::from_le_bytes(*word);
    }
    permute(lanes);
}
