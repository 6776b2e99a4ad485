//! A checker of a record, who has every party of a repetition but the hidden one: its part of the texts 6 and 7.
ghost use Rattle.std.specs.Prelude.{◌≡◌, ◌*◌, ◌≤◌, map, length, slice_index};
ghost use Rattle.std.specs.List.{range_with_len};
ghost use Rattle.protocol.specs.declared.field.Field.TheVariants as field;
ghost use Rattle.protocol.specs.Flags.{ones};
ghost use Rattle.protocol.specs.Layout.{field_part};
ghost use Rattle.protocol.specs.Of.{parameters};
ghost use Rattle.protocol.specs.Parameters.{sigma, parties};
ghost use Rattle.protocol.specs.Scheme.{words};
ghost use Rattle.digest.specs.Feeding.{Ready};
ghost use Rattle.digest.specs.Making.{Took};
ghost use Rattle.digest.specs.Short.{short_bytes};
ghost use Rattle.seedtree.specs.Grown.{Regrown};
ghost use Rattle.shares.specs.Shown.{most_shown, spread};
ghost use Rattle.sharing.specs.Parts.{record_commitments, record_shares, most_committed};
ghost use Rattle.sharing.specs.Rows.{others_held};
ghost use Rattle.sharing.specs.Sizes.{scratch_words};

use crate::checked::Checked;
use crate::hidden::Hidden;
use crate::known::Known;
use crate::memory::{Scratch, cut_scratch};
use crate::parties::{take_commitments, take_parties};
use crate::rows::sum_shares;
use digest::maker::DigestMaker;
use digest::short::ShortBytes;
use lattice::sums::add_row;
use lattice::values::read_words;
use protocol::field::Field;
use protocol::set::Set;
use seedtree::leaves::Leaves;
use seedtree::repetition::Repetition;
use seedtree::tree::regrow;
use shares::party::Missing;
use shares::taking::take_coded;

/// Feeds a repetition of text 6: all parties' commitments, the hidden one's as the record has it, then the offsets.
pub fn feed_text6<D: DigestMaker>(
    short: &mut D,
    long: &mut D,
    checked: Checked<'_>,
    scratch: &mut [u16],
)
    requires scratch { scratch_words (parameters checked.whole.view.header) ≤ length scratch.old }
    requires ready { Ready most_committed (D.DigestMaker.means long.old) }
    ensures { let x = checked.entry in Took (record_commitments D.DigestMaker.function (parameters x.whole.view.header) x.whole.view.bytes.now x.hidden.now x.number) (D.DigestMaker.means long.old) (D.DigestMaker.means long.new) }
{
    let header = checked.whole.view.header;
    let Scratch { nodes, .. } = cut_scratch(header, scratch);
    let block = checked.block();
    let of = Repetition {
        header,
        salt: checked.salt,
        number: checked.number,
    };
    let party = checked.party();
    regrow(short, of, party, block.seeds, nodes);
    let hidden = Hidden {
        party,
        has: ShortBytes::new(block.commitment).unwrap(),
    };
    take_commitments(short, long, Leaves { of, nodes }, Some(hidden));
    take_coded(long, header.m as usize, block.offsets);
}

/// Grows every leaf but the hidden party's, reads offsets and B, and sums what the other parties hold.
fn rebuild<D: DigestMaker>(
    maker: &mut D,
    checked: Checked<'_>,
    shares: &mut [u16],
    offsets: &mut [u16],
    sums: &mut [u16],
    key: &mut [u16],
    nodes: &mut [u16],
)
    requires shares { length shares.old ≡ (parameters checked.whole.view.header).m }
    requires offsets { length offsets.old ≡ (parameters checked.whole.view.header).m }
    requires sums { length sums.old ≡ (parameters checked.whole.view.header).m }
    requires key { length key.old ≡ (parameters checked.whole.view.header).n * (parameters checked.whole.view.header).c }
    requires nodes { 32 * parties (parameters checked.whole.view.header) ≤ length nodes.old }
    ensures tree { let x = checked.entry in let p = parameters x.whole.view.header in Regrown D.DigestMaker.function (short_bytes x.salt.now) x.number p.h (slice_index x.hidden.now x.number) (field_part p x.whole.view.bytes.now (field.Seeds x.number)) nodes.new }
    ensures offsets { let x = checked.entry in let p = parameters x.whole.view.header in offsets.new ≡ words (field_part p x.whole.view.bytes.now (field.Offsets x.number)) p.m }
    ensures key { let x = checked.entry in let p = parameters x.whole.view.header in key.new ≡ words (field_part p x.whole.view.bytes.now field.Key) (p.n * p.c) }
    ensures sums { let x = checked.entry in let p = parameters x.whole.view.header in sums.new ≡ map (others_held D.DigestMaker.function p (short_bytes x.salt.now) x.number nodes.new offsets.new (slice_index x.hidden.now x.number)) (range_with_len 0 p.m) }
{
    let header = checked.whole.view.header;
    let block = checked.block();
    let of = Repetition {
        header,
        salt: checked.salt,
        number: checked.number,
    };
    let party = checked.party();
    regrow(maker, of, party, block.seeds, nodes);
    read_words(block.offsets, offsets);
    read_words(checked.whole.view.part(Field::Key).bytes, key);
    sum_shares(maker, Leaves { of, nodes }, Some(party), shares, sums);
    if party != 0 {
        add_row(header.set, sums, offsets);
    }
}

/// Feeds a repetition of text 7: of each party its audited shares, then its product share; the hidden party's by subtraction from the
/// audited values and from B. `values` has the audited values by index.
pub fn feed_text7<'a, D: DigestMaker>(
    short: &mut D,
    long: &mut D,
    checked: Checked<'a>,
    values: &'a [u16],
    flags: &'a [u16],
    scratch: &'a mut [u16],
)
    requires values { values.now ≡ spread (parameters checked.whole.view.header) flags.now (field_part (parameters checked.whole.view.header) checked.whole.view.bytes.now field.Audited) }
    requires flags { length flags.now ≡ (parameters checked.whole.view.header).m }
    requires kept { ones flags.now ≡ sigma (parameters checked.whole.view.header) }
    requires scratch { scratch_words (parameters checked.whole.view.header) ≤ length scratch.old }
    requires ready { Ready (256 * most_shown) (D.DigestMaker.means long.old) }
    ensures { let x = checked.entry in Took (record_shares D.DigestMaker.function (parameters x.whole.view.header) x.whole.view.bytes.now x.hidden.now flags.now x.number) (D.DigestMaker.means long.old) (D.DigestMaker.means long.new) }
{
    let header = checked.whole.view.header;
    let Scratch {
        shares,
        offsets,
        sums,
        key,
        product,
        bench,
        nodes,
    } = cut_scratch(header, scratch);
    rebuild(short, checked, shares, offsets, sums, key, nodes);
    let seed_a = checked.seed_a();
    let of = Repetition {
        header,
        salt: checked.salt,
        number: checked.number,
    };
    let hidden = Hidden {
        party: checked.party(),
        has: Missing { values, key, sums },
    };
    let known = Known {
        leaves: Leaves { of, nodes },
        seed_a: &seed_a,
        flags,
        offsets,
        hidden: Some(hidden),
    };
    take_parties(short, long, known, shares, bench, product);
}
