//! What one party gives to the texts 6 and 7.
ghost use Rattle.std.specs.Prelude.{◌≡◌, ◌*◌, length};
ghost use Rattle.protocol.specs.Of.{parameters};
ghost use Rattle.protocol.specs.Parameters.{width};
ghost use Rattle.protocol.specs.Streams.{drawn};
ghost use Rattle.protocol.specs.Texts.{leaf_text};
ghost use Rattle.digest.specs.Feeding.{Ready};
ghost use Rattle.digest.specs.Making.{Took};
ghost use Rattle.digest.specs.Short.{short_bytes};
ghost use Rattle.lattice.specs.Lines.{at};
ghost use Rattle.shares.specs.Shown.{shown, found, most_shown};
ghost use Rattle.shares.specs.Sizes.{bench_words};

use crate::kept::Kept;
use crate::product::share_product;
use crate::taking::{take_audited, take_words};
use digest::maker::DigestMaker;
use digest::short::ShortBytes;
use digest::text::{draw_short, take_text};
use lattice::sums::subtract_from;
use protocol::set::Set;
use seedtree::repetition::Repetition;

/// A party's commitment to its leaf seed.
pub fn commit<D: DigestMaker>(
    maker: &mut D,
    repetition: Repetition<'_>,
    party: u8,
    seed: &[u8; 32],
) -> ShortBytes
    ensures { let r = repetition.entry in short_bytes result ≡ drawn D.DigestMaker.function (leaf_text 4 (short_bytes r.salt.now) r.number party seed.now) (width (parameters r.header)) }
{
    let Repetition {
        header,
        salt,
        number,
    } = repetition;
    take_text(maker, 4, salt.as_slice(), &[number, party], seed);
    draw_short(maker, header.width())
}

/// Takes what text 7 shows of a party that holds these shares: the audited ones, then its product share.
pub fn take_shown<D: DigestMaker>(
    maker: &mut D,
    kept: Kept<'_>,
    seed_a: &[u8; 16],
    shares: &[u16],
    bench: &mut [u16],
    product: &mut [u16],
)
    requires shares { length shares.now ≡ (parameters kept.header).m }
    requires bench { length bench.old ≡ bench_words (parameters kept.header) }
    requires room { length product.old ≡ (parameters kept.header).n * (parameters kept.header).c }
    requires ready { Ready most_shown (D.DigestMaker.means maker.old) }
    ensures { Took (shown (parameters kept.entry.header) seed_a.now kept.entry.flags.now (at shares.now)) (D.DigestMaker.means maker.old) (D.DigestMaker.means maker.new) }
{
    let Kept { header, flags } = kept;
    take_audited(maker, flags, shares);
    share_product(header, seed_a, flags, shares, bench, product);
    take_words(maker, product);
}

/// What a party's part is found from, where its seed is not known.
#[derive(Clone, Copy)]
pub struct Missing<'a> {
    /// The values modulo q.
    pub values: &'a [u16],
    /// The entries of B.
    pub key: &'a [u16],
    /// The other parties' shares, summed.
    pub sums: &'a [u16],
}

/// Takes what text 7 shows of the party that is found by subtraction: of the audited values and of B, less the others' shares and their
/// product. One product of the summed shares serves for all the others.
pub fn take_found<D: DigestMaker>(
    maker: &mut D,
    kept: Kept<'_>,
    seed_a: &[u8; 16],
    missing: Missing<'_>,
    shares: &mut [u16],
    bench: &mut [u16],
    product: &mut [u16],
)
    requires values { length missing.values.now ≡ (parameters kept.header).m }
    requires key { length missing.key.now ≡ (parameters kept.header).n * (parameters kept.header).c }
    requires sums { length missing.sums.now ≡ (parameters kept.header).m }
    requires shares { length shares.old ≡ (parameters kept.header).m }
    requires bench { length bench.old ≡ bench_words (parameters kept.header) }
    requires room { length product.old ≡ (parameters kept.header).n * (parameters kept.header).c }
    requires ready { Ready most_shown (D.DigestMaker.means maker.old) }
    ensures { let m = missing.entry in Took (found (parameters kept.entry.header) seed_a.now kept.entry.flags.now (at m.values.now) (at m.key.now) (at m.sums.now)) (D.DigestMaker.means maker.old) (D.DigestMaker.means maker.new) }
{
    let Kept { header, flags } = kept;
    let Missing { values, key, sums } = missing;
    let set = header.set;
    shares.copy_from_slice(sums);
    subtract_from(set, values, shares);
    take_audited(maker, flags, shares);
    share_product(header, seed_a, flags, sums, bench, product);
    subtract_from(set, key, product);
    take_words(maker, product);
}
