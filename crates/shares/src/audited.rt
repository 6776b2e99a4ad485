//! The audited values of a record, by index.
ghost use Rattle.std.specs.Prelude.{◌≡◌, map, length, pos, slice_index_or};
ghost use Rattle.protocol.specs.Of.{parameters};
ghost use Rattle.protocol.specs.Parameters.{modulus};
ghost use Rattle.protocol.specs.Residues.{residue as residue_of};
ghost use Rattle.protocol.specs.Sampling.{signed};
ghost use Rattle.protocol.specs.Sets.{number};
ghost use Rattle.shares.specs.Shown.{spread};

use lattice::values::{from_byte, residue};
use protocol::header::Header;
use protocol::set::Set;

/// The audited value at a place, modulo q, and 0 past the last.
fn residue_at(set: Set, bytes: &[u8], i: usize) -> u16
    ensures { result ≡ residue_of (modulus (number set)) (slice_index_or (map signed bytes.now) i (pos 0)) }
{
    match bytes.get(i) {
        Some(byte) => residue(set, from_byte(*byte)),
        None => 0,
    }
}

/// Spreads the audited values over the indices that are not kept, modulo q; at a kept one stands the next that is audited, or 0, which
/// nobody reads.
pub fn spread_audited(header: Header, flags: &[u16], bytes: &[u8], values: &mut [u16])
    requires flags { length flags.now ≡ (parameters header).m }
    requires room { length values.old ≡ (parameters header).m }
    ensures { values.new ≡ spread (parameters header) flags.now bytes.now }
{
    let set = header.set;
    // by a count beside the place: at a kept one stands the next that is audited, which is then not passed
    let mut next = 0;
    for (k, value) in values.iter_mut().enumerate() {
        *value = residue_at(set, bytes, next);
        if flags[k] != 1 {
            next += 1;
        }
    }
}
