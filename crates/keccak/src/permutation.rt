//! The permutation of 1600 bits.
ghost use Rattle.std.specs.Prelude.{◌≡◌};
ghost use Rattle.keccak.specs.Keccak.{keccak_f};

use crate::rounds::one_round;
use crate::tables::ROUND_CONSTANTS;

/// Permutes the state, in 24 rounds.
pub fn permute(lanes: &mut [u64; 25])
    ensures { lanes.new ≡ keccak_f lanes.old }
{
    for constant in ROUND_CONSTANTS {
        one_round(lanes, constant);
    }
}
