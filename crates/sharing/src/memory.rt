//! The working memory, cut into its parts.
ghost use Rattle.std.specs.Prelude.{◌≡◌, ◌*◌, ◌≤◌, length};
ghost use Rattle.protocol.specs.Of.{parameters};
ghost use Rattle.protocol.specs.Parameters.{parties, work_words};
ghost use Rattle.shares.specs.Sizes.{bench_words};
ghost use Rattle.sharing.specs.Sizes.{scratch_words};

use protocol::header::Header;

/// The parts of the working memory: what lasts for a whole text, and the rest.
// cut from one memory that is lent: there is no heap
#[derive(Drop)]
pub struct Work<'a> {
    /// The values modulo q: a holder's own, or the audited ones of a record.
    pub values: &'a mut [u16],
    /// 1 for a kept value, 0 for an audited one.
    pub flags: &'a mut [u16],
    pub scratch: &'a mut [u16],
}

/// The parts of the rest, which serve one repetition at a time.
#[derive(Drop)]
pub struct Scratch<'a> {
    /// One party's shares.
    pub shares: &'a mut [u16],
    pub offsets: &'a mut [u16],
    /// The other parties' shares, summed.
    pub sums: &'a mut [u16],
    /// The entries of B.
    pub key: &'a mut [u16],
    /// One party's product share.
    pub product: &'a mut [u16],
    /// What a product is computed in.
    pub bench: &'a mut [u16],
    /// The seed tree.
    pub nodes: &'a mut [u16],
}

/// Cuts the working memory of a call.
pub fn cut_work(header: Header, work: &mut [u16]) -> Work<'_>
    requires { work_words (parameters header) ≤ length work.old }
    ensures values { length result.values.now ≡ (parameters header).m }
    ensures flags { length result.flags.now ≡ (parameters header).m }
    ensures scratch { scratch_words (parameters header) ≤ length result.scratch.now }
{
    let m = header.m as usize;
    let (values, rest) = work.split_at_mut(m);
    let (flags, scratch) = rest.split_at_mut(m);
    Work {
        values,
        flags,
        scratch,
    }
}

/// Cuts what serves one repetition.
// Each function is lent it uncut: of a lent Scratch each would have to say, before and after, that it is cut for the header at hand.
pub fn cut_scratch(header: Header, scratch: &mut [u16]) -> Scratch<'_>
    requires { scratch_words (parameters header) ≤ length scratch.old }
    ensures shares { length result.shares.now ≡ (parameters header).m }
    ensures offsets { length result.offsets.now ≡ (parameters header).m }
    ensures sums { length result.sums.now ≡ (parameters header).m }
    ensures key { length result.key.now ≡ (parameters header).n * (parameters header).c }
    ensures product { length result.product.now ≡ (parameters header).n * (parameters header).c }
    ensures bench { length result.bench.now ≡ bench_words (parameters header) }
    ensures nodes { 32 * parties (parameters header) ≤ length result.nodes.now }
{
    let m = header.m as usize;
    let entries = header.entries();
    let bench = header.kept() + (entries + header.n as usize);
    let (shares, rest) = scratch.split_at_mut(m);
    let (offsets, rest) = rest.split_at_mut(m);
    let (sums, rest) = rest.split_at_mut(m);
    let (key, rest) = rest.split_at_mut(entries);
    let (product, rest) = rest.split_at_mut(entries);
    let (bench, nodes) = rest.split_at_mut(bench);
    Scratch {
        shares,
        offsets,
        sums,
        key,
        product,
        bench,
        nodes,
    }
}
