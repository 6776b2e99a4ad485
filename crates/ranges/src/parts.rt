//! The tests of one field of a record, by its part.
ghost use Rattle.std.specs.Prelude.{◌≡◌, ◌+◌, ◌^◌, ◌<◌, length};
ghost use Rattle.protocol.specs.Parameters.{bound};
ghost use Rattle.protocol.specs.Sets.{number};
ghost use Rattle.protocol.specs.Tests.{first_failing};
ghost use Rattle.ranges.specs.Parts.{residue_tests, audited_tests};

use lattice::values::{from_byte, in_range};
use protocol::fault::Fault;
use protocol::set::Set;
use record::view::Part;

/// Tests that the two-byte entries of a part are below q.
pub(crate) fn test_residues(part: Part, q: u32) -> Result<(), Fault>
    requires { part.offset + length part.bytes.now < 2 ^ 64 }
    ensures { result ≡ first_failing (residue_tests part.entry.bytes.now part.entry.offset q) tt }
{
    let (pairs, _) = part.bytes.as_chunks::<2>();
    for (i, pair) in pairs.iter().enumerate() {
        if u16::from_le_bytes(*pair) as u32 >= q {
            return Err(Fault::Residue {
                offset: part.offset + 2 * i,
            });
        }
    }
    Ok(())
}

/// Tests that the values of a part, one byte each, lie within the bound of a set.
pub(crate) fn test_audited(part: Part, set: Set) -> Result<(), Fault>
    requires { part.offset + length part.bytes.now < 2 ^ 64 }
    ensures { result ≡ first_failing (audited_tests part.entry.bytes.now part.entry.offset (bound (number set))) tt }
{
    for (i, byte) in part.bytes.iter().enumerate() {
        if !in_range(set, from_byte(*byte)) {
            return Err(Fault::Audited {
                offset: part.offset + i,
            });
        }
    }
    Ok(())
}
