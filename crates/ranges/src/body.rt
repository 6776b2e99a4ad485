//! The tests of a record's body, in their order.
ghost use Rattle.std.specs.Prelude.{◌≡◌, ◌+◌, ◌*◌, ◌/◌, ◌≤◌, map, length};
ghost use Rattle.std.specs.List.{range_with_len, flat_map};
ghost use Rattle.protocol.specs.declared.field.Field.TheVariants as field;
ghost use Rattle.protocol.specs.Book.{residue_test, audited_range_tests, offset_range_tests, body_tests};
ghost use Rattle.protocol.specs.Layout.{offset, size, record_length};
ghost use Rattle.protocol.specs.Of.{parameters};
ghost use Rattle.protocol.specs.Parameters.{modulus};
ghost use Rattle.protocol.specs.Tests.{first_failing};

use crate::parts::{test_audited, test_residues};
use protocol::fault::Fault;
use protocol::field::Field;
use record::whole::Whole;

/// Tests the two-byte entries of a field: those of B, or the offsets of one repetition.
fn test_entries(whole: Whole<'_>, entries: Field) -> Result<(), Fault>
    requires { offset (parameters whole.view.header) entries + size (parameters whole.view.header) entries ≤ record_length (parameters whole.view.header) }
    ensures { result ≡ first_failing (map (λ i. residue_test whole.entry.view.bytes.now (modulus (parameters whole.entry.view.header).set) (offset (parameters whole.entry.view.header) entries + 2 * i)) (range_with_len 0 (size (parameters whole.entry.view.header) entries / 2))) tt }
{
    let part = whole.view.part(entries);
    test_residues(part, whole.view.header.set.modulus())
}

/// Tests the audited values.
fn test_values(whole: Whole<'_>) -> Result<(), Fault>
    ensures { result ≡ first_failing (audited_range_tests whole.entry.view.bytes.now (parameters whole.entry.view.header)) tt }
{
    test_audited(whole.view.part(Field::Audited), whole.view.header.set)
}

/// Tests the offsets of all repetitions.
fn test_offsets(whole: Whole<'_>) -> Result<(), Fault>
    ensures { result ≡ first_failing (flat_map (offset_range_tests whole.entry.view.bytes.now (parameters whole.entry.view.header)) (range_with_len 0 whole.entry.view.header.tau)) tt }
{
    for e in 0..whole.view.header.tau {
        test_entries(whole, Field::Offsets(e))?;
    }
    Ok(())
}

/// Tests the ranges of a record's body: B, then the audited values, then the offsets, repetition by repetition. The first that is out
/// of range refuses, with its offset in the record.
pub fn test_ranges(whole: Whole<'_>) -> Result<(), Fault>
    ensures { result ≡ first_failing (body_tests whole.entry.view.bytes.now (parameters whole.entry.view.header)) tt }
{
    test_entries(whole, Field::Key)?;
    test_values(whole)?;
    test_offsets(whole)
}
