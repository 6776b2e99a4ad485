//! A holder of salt and master: its offsets, and its part of the texts 6 and 7.
ghost use Rattle.std.specs.Prelude.{◌≡◌, ◌*◌, ◌≤◌, length};
ghost use Rattle.protocol.specs.Ceremony.{root};
ghost use Rattle.protocol.specs.Of.{parameters};
ghost use Rattle.protocol.specs.Parameters.{parties};
ghost use Rattle.digest.specs.Feeding.{Ready};
ghost use Rattle.digest.specs.Making.{Took};
ghost use Rattle.digest.specs.Short.{short_bytes};
ghost use Rattle.seedtree.specs.Grown.{Grown};
ghost use Rattle.shares.specs.Shown.{most_shown};
ghost use Rattle.sharing.specs.Parts.{holder_offsets, holder_commitments, holder_shares, most_committed};
ghost use Rattle.sharing.specs.Sizes.{scratch_words};

use crate::held::{Asked, Holder};
use crate::known::Known;
use crate::memory::{Scratch, cut_scratch};
use crate::parties::{take_commitments, take_parties};
use crate::rows::sum_shares;
use digest::maker::DigestMaker;
use lattice::sums::subtract_from;
use protocol::set::Set;
use seedtree::leaves::Leaves;
use seedtree::repetition::Repetition;
use seedtree::tree::grow;
use shares::taking::take_words;

/// Grows the tree of a repetition and finds the offsets of the values, each value less all its shares; `shares` is worked in.
pub fn share_out<D: DigestMaker>(
    maker: &mut D,
    holder: Holder<'_, D>,
    number: u8,
    shares: &mut [u16],
    offsets: &mut [u16],
    nodes: &mut [u16],
)
    requires shares { length shares.old ≡ (parameters holder.header).m }
    requires offsets { length offsets.old ≡ (parameters holder.header).m }
    requires nodes { 32 * parties (parameters holder.header) ≤ length nodes.old }
    ensures tree { let salt = short_bytes holder.entry.salt.now in Grown D.DigestMaker.function salt number (root D.DigestMaker.function salt holder.entry.master.now number) (parameters holder.entry.header).h nodes.new }
    ensures offsets { offsets.new ≡ holder_offsets D.DigestMaker.function (parameters holder.entry.header) (short_bytes holder.entry.salt.now) holder.entry.master.now number }
{
    let Holder {
        header,
        salt,
        master,
        values,
        ..
    } = holder;
    let of = Repetition {
        header,
        salt,
        number,
    };
    grow(maker, of, master, nodes);
    sum_shares(maker, Leaves { of, nodes }, None, shares, offsets);
    subtract_from(header.set, values, offsets);
}

/// Feeds a repetition of text 6: all parties' commitments, then the offsets.
pub fn feed_text6<D: DigestMaker>(
    short: &mut D,
    long: &mut D,
    holder: Holder<'_, D>,
    number: u8,
    scratch: &mut [u16],
)
    requires scratch { scratch_words (parameters holder.header) ≤ length scratch.old }
    requires ready { Ready most_committed (D.DigestMaker.means long.old) }
    ensures { let h = holder.entry in Took (holder_commitments D.DigestMaker.function (parameters h.header) (short_bytes h.salt.now) h.master.now number) (D.DigestMaker.means long.old) (D.DigestMaker.means long.new) }
{
    let header = holder.header;
    let Scratch {
        shares,
        offsets,
        nodes,
        ..
    } = cut_scratch(header, scratch);
    share_out(short, holder, number, shares, offsets, nodes);
    let of = Repetition {
        header,
        salt: holder.salt,
        number,
    };
    take_commitments(short, long, Leaves { of, nodes }, None);
    take_words(long, offsets);
}

/// Feeds a repetition of text 7: of each party its audited shares, then its product share.
pub fn feed_text7<'a, D: DigestMaker>(
    short: &mut D,
    long: &mut D,
    asked: Asked<'a, D>,
    number: u8,
    scratch: &'a mut [u16],
)
    requires scratch { scratch_words (parameters asked.holder.header) ≤ length scratch.old }
    requires ready { Ready (256 * most_shown) (D.DigestMaker.means long.old) }
    ensures { let h = asked.entry.holder in Took (holder_shares D.DigestMaker.function (parameters h.header) (short_bytes h.salt.now) h.master.now asked.entry.seed_a.now asked.entry.flags.now number) (D.DigestMaker.means long.old) (D.DigestMaker.means long.new) }
{
    let Asked {
        holder,
        seed_a,
        flags,
    } = asked;
    let header = holder.header;
    let Scratch {
        shares,
        offsets,
        product,
        bench,
        nodes,
        ..
    } = cut_scratch(header, scratch);
    share_out(short, holder, number, shares, offsets, nodes);
    let of = Repetition {
        header,
        salt: holder.salt,
        number,
    };
    let known = Known {
        leaves: Leaves { of, nodes },
        seed_a,
        flags,
        offsets,
        hidden: None,
    };
    take_parties(short, long, known, shares, bench, product);
}
