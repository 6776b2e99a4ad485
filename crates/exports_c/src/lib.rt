//! The digests, and a row of the product, as C functions, for benchmarks and tests from other languages: those of the crate `exports`,
//! under the symbols of a static library. C has no Result: what is refused is a `bool` here.
#![tactic(auto)]

ghost use Rattle.std.specs.Prelude.{◌≡◌, ℕ, ◌<◌, length, is_ok, MatchBool};
ghost use Rattle.protocol.specs.Streams.{drawn};
ghost use Rattle.digest.specs.Parts.{digests};
ghost use Rattle.keccak.specs.Sponge.{shake256};
ghost use Rattle.sha512.specs.Stretched.{stretched};
ghost use Rattle.lattice.specs.Lines.{at, row_entry};
ghost use Rattle.exports.specs.Sizes.{fits};

use keccak::shake256::Shake256;
use sha512::stretched::Stretched;

/// Fills the buffer with the front of SHAKE256 of the text; false, and the buffer as it was, where one of them is past the limit.
#[unsafe(no_mangle)]
pub extern "C" fn zaghmikhe_shake256(text: &[u8], out: &mut [u8]) -> bool
    ensures answer { result ≡ is_ok (digests (length text.now) (length out.old)) }
    ensures out { MatchBool result (out.new ≡ drawn shake256 text.now (length out.old)) (out.new ≡ out.old) }
{
    exports::digest_into::<Shake256>(text, out).is_ok()
}

/// The same by stretched SHA-512.
#[unsafe(no_mangle)]
pub extern "C" fn zaghmikhe_sha512(text: &[u8], out: &mut [u8]) -> bool
    ensures answer { result ≡ is_ok (digests (length text.now) (length out.old)) }
    ensures out { MatchBool result (out.new ≡ drawn stretched text.now (length out.old)) (out.new ≡ out.old) }
{
    exports::digest_into::<Stretched>(text, out).is_ok()
}

/// A row of A·S + E mod 32768, of the row of A, S by columns and the row of E; false, and the buffer as it was, where the sizes do not
/// go together or are past those of a header.
#[unsafe(no_mangle)]
pub extern "C" fn zaghmikhe_multiply_row(
    row: &[u16],
    columns: &[u16],
    errors: &[u16],
    out: &mut [u16],
) -> bool
    ensures answer { result ≡ fits row.now columns.now errors.now out.old }
    ensures out { MatchBool result ((l : ℕ) → l < length out.old → at out.new l ≡ row_entry 32768 (length row.now) row.now columns.now (at errors.now l) l) (out.new ≡ out.old) }
{
    exports::product::multiply_row_into(row, columns, errors, out).is_ok()
}
