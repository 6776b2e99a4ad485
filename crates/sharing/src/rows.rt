//! The parties' shares, from the leaf seeds of a tree: one party's, and sums.
ghost use Rattle.std.specs.Prelude.{◌≡◌, ◌<◌, map, length, unwrap_or};
ghost use Rattle.std.specs.List.{range_with_len};
ghost use Rattle.protocol.specs.Of.{parameters};
ghost use Rattle.protocol.specs.Parameters.{parties};
ghost use Rattle.digest.specs.Short.{short_bytes};
ghost use Rattle.shares.specs.Drawing.{share};
ghost use Rattle.sharing.specs.Rows.{leaf_in, summed, held};

use digest::maker::DigestMaker;
use lattice::sums::add_row;
use protocol::set::Set;
use seedtree::leaves::Leaves;
use shares::drawing::draw_shares;

/// Party j's shares as they are drawn.
// that j is a party's number stays a clause: loops count it, and no value has it
fn draw_row<D: DigestMaker>(maker: &mut D, leaves: Leaves<'_>, j: usize, shares: &mut [u16])
    requires party { j < parties (parameters leaves.of.header) }
    requires room { length shares.old ≡ (parameters leaves.of.header).m }
    ensures { let r = leaves.entry.of in let p = parameters r.header in shares.new ≡ map (share D.DigestMaker.function p (short_bytes r.salt.now) r.number j (leaf_in p leaves.entry.nodes.now j)) (range_with_len 0 p.m) }
{
    let seed = leaves.seed(j);
    draw_shares(maker, leaves.of, j as u8, &seed, shares);
}

/// The shares of all parties but the one that is left out, if one is, summed modulo q; `shares` is worked in.
pub fn sum_shares<D: DigestMaker>(
    maker: &mut D,
    leaves: Leaves<'_>,
    left_out: Option<usize>,
    shares: &mut [u16],
    sum: &mut [u16],
)
    requires room { length shares.old ≡ (parameters leaves.of.header).m }
    requires sum { length sum.old ≡ (parameters leaves.of.header).m }
    ensures { let r = leaves.entry.of in let p = parameters r.header in sum.new ≡ map (summed D.DigestMaker.function p (short_bytes r.salt.now) r.number leaves.entry.nodes.now (unwrap_or left_out (parties p))) (range_with_len 0 p.m) }
{
    let header = leaves.of.header;
    let set = header.set;
    sum.fill(0);
    for j in 0..header.parties() {
        if left_out != Some(j) {
            draw_row(maker, leaves, j, shares);
            add_row(set, sum, shares);
        }
    }
}

/// Party j's shares, with the offsets if it is party 0.
pub fn hold_shares<D: DigestMaker>(
    maker: &mut D,
    leaves: Leaves<'_>,
    offsets: &[u16],
    j: usize,
    shares: &mut [u16],
)
    requires party { j < parties (parameters leaves.of.header) }
    requires offsets { length offsets.now ≡ (parameters leaves.of.header).m }
    requires room { length shares.old ≡ (parameters leaves.of.header).m }
    ensures { let r = leaves.entry.of in let p = parameters r.header in shares.new ≡ map (held D.DigestMaker.function p (short_bytes r.salt.now) r.number leaves.entry.nodes.now offsets.now j) (range_with_len 0 p.m) }
{
    draw_row(maker, leaves, j, shares);
    if j == 0 {
        add_row(leaves.of.header.set, shares, offsets);
    }
}
