//! What is known of a repetition when its shares are fed.
ghost use Rattle.std.specs.Prelude.{◌≡◌, ◌*◌, Some, length};
ghost use Rattle.protocol.specs.Flags.{ones};
ghost use Rattle.protocol.specs.Of.{parameters};
ghost use Rattle.protocol.specs.Parameters.{sigma};
ghost use Rattle.shares.specs.declared.party.Missing.{Missing};
ghost use Rattle.sharing.specs.declared.hidden.Hidden.{Hidden};

use crate::hidden::Hidden;
use seedtree::leaves::Leaves;
use shares::party::Missing;

/// A repetition's tree, seedA, flags and offsets, with the party that is found by subtraction, if one is.
#[derive(Clone, Copy)]
pub struct Known<'a> {
    pub leaves: Leaves<'a>,
    pub seed_a: &'a [u8; 16],
    pub flags: &'a [u16],
    pub offsets: &'a [u16],
    pub hidden: Option<Hidden<Missing<'a>>>,
    ghost flags_long: { length flags.now ≡ (parameters leaves.of.header).m },
    ghost flags_kept: { ones flags.now ≡ sigma (parameters leaves.of.header) },
    ghost offsets_long: { length offsets.now ≡ (parameters leaves.of.header).m },
    ghost values_long: { (h : Hidden Missing) → hidden ≡ Some h → length h.has.values.now ≡ (parameters leaves.of.header).m },
    ghost key_long: { (h : Hidden Missing) → hidden ≡ Some h → length h.has.key.now ≡ (parameters leaves.of.header).n * (parameters leaves.of.header).c },
    ghost sums_long: { (h : Hidden Missing) → hidden ≡ Some h → length h.has.sums.now ≡ (parameters leaves.of.header).m },
}
