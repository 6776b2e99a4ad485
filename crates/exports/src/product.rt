//! One row of A·S + E.
ghost use Rattle.std.specs.Prelude.{◌≡◌, ℕ, ◌<◌, length, is_ok, MatchResult};
ghost use Rattle.lattice.specs.Lines.{at, row_entry};
ghost use Rattle.exports.specs.Sizes.{fits};

use lattice::product::multiply_row;
use protocol::set::Set;

fn fits(row: &[u16], columns: &[u16], errors: &[u16], out: &[u16]) -> bool
    ensures { result ≡ fits row.now columns.now errors.now out.now }
{
    row.len() <= 1344
        && out.len() <= 8
        && columns.len() == out.len() * row.len()
        && errors.len() == out.len()
}

/// Sizes that do not go together, or are past those of a header.
#[derive(Clone, Copy, PartialEq, Eq, Debug)]
pub struct Unfit;

/// A row of A·S + E mod 32768, of the row of A, S by columns and the row of E; refused, and the buffer as it was, where the sizes do not
/// go together or are past those of a header.
pub fn multiply_row_into(
    row: &[u16],
    columns: &[u16],
    errors: &[u16],
    out: &mut [u16],
) -> Result<(), Unfit>
    ensures answer { is_ok result ≡ fits row.now columns.now errors.now out.old }
    ensures out { MatchResult result (λ _. (l : ℕ) → l < length out.old → at out.new l ≡ row_entry 32768 (length row.now) row.now columns.now (at errors.now l) l) (λ _. out.new ≡ out.old) }
{
    if !fits(row, columns, errors, out) {
        return Err(Unfit);
    }
    multiply_row(Set::One, out.len(), 0, row, columns, errors, out);
    Ok(())
}
