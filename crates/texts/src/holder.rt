//! The digests d1 and d2 of a holder of salt and master.
ghost use Rattle.std.specs.Prelude.{◌≡◌, ℕ, ◌*◌, ◌<◌, ◌≤◌, [], map, length, slice_index};
ghost use Rattle.std.specs.List.{range_with_len, flat_map};
ghost use Rattle.protocol.specs.Bytes.{le16};
ghost use Rattle.protocol.specs.Ceremony.{secret_of};
ghost use Rattle.protocol.specs.Of.{parameters};
ghost use Rattle.protocol.specs.Parameters.{width};
ghost use Rattle.protocol.specs.Prover.{honest6, honest7};
ghost use Rattle.protocol.specs.Sharing.{parts};
ghost use Rattle.protocol.specs.Streams.{drawn};
ghost use Rattle.digest.specs.Feeding.{Ready};
ghost use Rattle.digest.specs.Making.{Took};
ghost use Rattle.digest.specs.Short.{short_bytes};
ghost use Rattle.lattice.specs.Lines.{at};
ghost use Rattle.shares.specs.Shown.{most_shown, product_of};
ghost use Rattle.sharing.specs.Parts.{scheme, holder_commitments, holder_shares, most_committed};
ghost use Rattle.sharing.specs.Sizes.{scratch_words};

use crate::fronts::{begin_text6, begin_text7};
use digest::maker::DigestMaker;
use digest::short::ShortBytes;
use digest::text::draw_short;
use record::encode::encode_header;
use shares::product::share_product;
use shares::taking::take_words;
use sharing::held::{Asked, Holder};
use sharing::holder::{feed_text6, feed_text7};
use sharing::memory::{Scratch, cut_scratch};

/// Feeds all repetitions of text 6.
fn feed_all6<D: DigestMaker>(
    short: &mut D,
    long: &mut D,
    holder: Holder<'_, D>,
    scratch: &mut [u16],
)
    requires scratch { scratch_words (parameters holder.header) ≤ length scratch.old }
    requires ready { Ready (64 * most_committed) (D.DigestMaker.means long.old) }
    ensures { let h = holder.entry in Took (parts (parameters h.header).tau (holder_commitments D.DigestMaker.function (parameters h.header) (short_bytes h.salt.now) h.master.now)) (D.DigestMaker.means long.old) (D.DigestMaker.means long.new) }
{
    for number in 0..holder.header.tau {
        feed_text6(short, long, holder, number, scratch);
    }
}

/// d1: drawn on text 6 of a holder's values and attributes.
pub fn digest_text6<D: DigestMaker>(
    short: &mut D,
    long: &mut D,
    holder: Holder<'_, D>,
    attributes: &[u8],
    scratch: &mut [u16],
) -> ShortBytes
    requires attributes { length attributes.now ≡ (parameters holder.header).a }
    requires scratch { scratch_words (parameters holder.header) ≤ length scratch.old }
    ensures { let h = holder.entry in let p = parameters h.header in short_bytes result ≡ drawn D.DigestMaker.function (honest6 (scheme D.DigestMaker.function p) (secret_of D.DigestMaker.function p (short_bytes h.salt.now) h.master.now attributes.now [] [] [])) (width p) }
{
    let header = holder.header;
    begin_text6(long, &encode_header(header), holder.salt, attributes);
    feed_all6(short, long, holder, scratch);
    draw_short(long, header.width())
}

/// Takes B, the key rule over the kept values.
fn take_key<D: DigestMaker>(long: &mut D, asked: Asked<'_, D>, scratch: &mut [u16])
    requires scratch { scratch_words (parameters asked.holder.header) ≤ length scratch.old }
    requires ready { Ready (2 * ((parameters asked.holder.header).n * (parameters asked.holder.header).c)) (D.DigestMaker.means long.old) }
    ensures { let p = parameters asked.entry.holder.header in Took (flat_map le16 (map (product_of p asked.entry.seed_a.now asked.entry.flags.now (at asked.entry.holder.values.now)) (range_with_len 0 (p.n * p.c)))) (D.DigestMaker.means long.old) (D.DigestMaker.means long.new) }
{
    let Asked {
        holder,
        seed_a,
        flags,
    } = asked;
    let Scratch {
        shares: _,
        offsets: _,
        sums: _,
        key,
        product: _,
        bench,
        nodes: _,
    } = cut_scratch(holder.header, scratch);
    share_product(holder.header, seed_a, flags, holder.values, bench, key);
    take_words(long, key);
}

/// Feeds all repetitions of text 7.
fn feed_all7<D: DigestMaker>(short: &mut D, long: &mut D, asked: Asked<'_, D>, scratch: &mut [u16])
    requires scratch { scratch_words (parameters asked.holder.header) ≤ length scratch.old }
    requires ready { Ready (64 * (256 * most_shown)) (D.DigestMaker.means long.old) }
    ensures { let h = asked.entry.holder in Took (parts (parameters h.header).tau (holder_shares D.DigestMaker.function (parameters h.header) (short_bytes h.salt.now) h.master.now asked.entry.seed_a.now asked.entry.flags.now)) (D.DigestMaker.means long.old) (D.DigestMaker.means long.new) }
{
    for number in 0..asked.holder.header.tau {
        feed_text7(short, long, asked, number, scratch);
    }
}

/// d2: drawn on text 7 of a holder who was asked, d1, and the key that seedA and the flags make.
pub fn digest_text7<D: DigestMaker>(
    short: &mut D,
    long: &mut D,
    asked: Asked<'_, D>,
    d1: &ShortBytes,
    scratch: &mut [u16],
) -> ShortBytes
    requires plain { (k : ℕ) → slice_index asked.flags.now k < 2 }
    requires scratch { scratch_words (parameters asked.holder.header) ≤ length scratch.old }
    ensures { let h = asked.entry.holder in let p = parameters h.header in short_bytes result ≡ drawn D.DigestMaker.function (honest7 (scheme D.DigestMaker.function p) (secret_of D.DigestMaker.function p (short_bytes h.salt.now) h.master.now [] (short_bytes d1.now) asked.entry.seed_a.now asked.entry.flags.now)) (width p) }
{
    let Asked {
        holder,
        seed_a,
        flags,
    } = asked;
    begin_text7(long, holder.salt, d1, flags, seed_a);
    take_key(long, asked, scratch);
    feed_all7(short, long, asked, scratch);
    draw_short(long, holder.header.width())
}
