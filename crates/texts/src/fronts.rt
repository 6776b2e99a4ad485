//! The fronts of the texts 6 and 7: what stands before the first repetition, but for B.
ghost use Rattle.std.specs.Prelude.{◌≡◌, ℕ, ◌<◌, ◌≤◌, ◌∷◌, ◌++◌, length, slice_index};
ghost use Rattle.digest.specs.Feeding.{Ready};
ghost use Rattle.digest.specs.Making.{Holding, Took};
ghost use Rattle.digest.specs.Short.{short_bytes};

use digest::maker::DigestMaker;
use digest::short::ShortBytes;
use digest::text::take_text;

/// Begins text 6: the header, the salt, the attributes.
pub fn begin_text6<D: DigestMaker>(
    long: &mut D,
    header: &[u8],
    salt: &ShortBytes,
    attributes: &[u8],
)
    requires header { length header.now ≤ 15 }
    requires attributes { length attributes.now ≤ 1024 }
    ensures { Holding D.DigestMaker.function (6 ∷ (header.now ++ (short_bytes salt.now ++ attributes.now))) (D.DigestMaker.means long.new) }
{
    take_text(long, 6, header, salt.as_slice(), &[]);
    long.take(attributes).unwrap();
}

/// Takes the flags, a byte each.
// that flags are 0 or 1 stays a clause: only what digests them asks it, and a type would ask it of all who take flags
fn take_flags<D: DigestMaker>(maker: &mut D, flags: &[u16])
    requires plain { (k : ℕ) → slice_index flags.now k < 2 }
    requires ready { Ready (length flags.now) (D.DigestMaker.means maker.old) }
    ensures { Took flags.now (D.DigestMaker.means maker.old) (D.DigestMaker.means maker.new) }
{
    for flag in flags {
        maker.take(&[*flag as u8]).unwrap();
    }
}

/// Begins text 7: the salt, d1, the flags, seedA.
pub fn begin_text7<D: DigestMaker>(
    long: &mut D,
    salt: &ShortBytes,
    d1: &ShortBytes,
    flags: &[u16],
    seed_a: &[u8; 16],
)
    requires plain { (k : ℕ) → slice_index flags.now k < 2 }
    requires few { length flags.now ≤ 32768 }
    ensures holds { Holding D.DigestMaker.function (7 ∷ (short_bytes salt.now ++ (short_bytes d1.now ++ (flags.now ++ seed_a.now)))) (D.DigestMaker.means long.new) }
    // the length is the array's; a proof whose seedA lies in a struct reads it here
    ensures seed { length seed_a.now ≡ 16 }
{
    take_text(long, 7, salt.as_slice(), d1.as_slice(), &[]);
    take_flags(long, flags);
    long.take(seed_a).unwrap();
}
