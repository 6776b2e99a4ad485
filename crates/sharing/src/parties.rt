//! What all parties of a repetition give to the texts 6 and 7.
ghost use Rattle.std.specs.Prelude.{◌≡◌, ◌*◌, ◌<◌, length};
ghost use Rattle.protocol.specs.Of.{parameters};
ghost use Rattle.protocol.specs.Parameters.{parties};
ghost use Rattle.protocol.specs.Sharing.{parts};
ghost use Rattle.digest.specs.Feeding.{Ready};
ghost use Rattle.digest.specs.Making.{Took};
ghost use Rattle.digest.specs.Short.{short_bytes};
ghost use Rattle.shares.specs.Shown.{most_shown};
ghost use Rattle.shares.specs.Sizes.{bench_words};
ghost use Rattle.sharing.specs.Known.{commitment_of, party_text};

use crate::hidden::Hidden;
use crate::known::Known;
use crate::rows::hold_shares;
use digest::maker::DigestMaker;
use digest::short::ShortBytes;
use seedtree::leaves::Leaves;
use shares::kept::Kept;
use shares::party::{commit, take_found, take_shown};

// The makers of short texts and of the long one stay two parameters, and so do the rows that are worked in: lent in a struct, each
// function would have to say that it holds the same makers still, and rows of this header's lengths.

/// Party j's commitment, the hidden one's as it is given.
fn commitment<D: DigestMaker>(
    maker: &mut D,
    leaves: Leaves<'_>,
    hidden: Option<Hidden<ShortBytes>>,
    j: usize,
) -> ShortBytes
    requires { j < parties (parameters leaves.of.header) }
    ensures { short_bytes result ≡ commitment_of D.DigestMaker.function leaves.entry hidden j }
{
    match hidden {
        Some(hidden) if hidden.party == j => hidden.has,
        _ => {
            let seed = leaves.seed(j);
            commit(maker, leaves.of, j as u8, &seed)
        }
    }
}

/// Takes all parties' commitments, the hidden one's as it is given, if one is hidden.
pub fn take_commitments<D: DigestMaker>(
    short: &mut D,
    long: &mut D,
    leaves: Leaves<'_>,
    hidden: Option<Hidden<ShortBytes>>,
)
    requires { Ready (64 * parties (parameters leaves.of.header)) (D.DigestMaker.means long.old) }
    ensures { Took (parts (parties (parameters leaves.entry.of.header)) (commitment_of D.DigestMaker.function leaves.entry hidden)) (D.DigestMaker.means long.old) (D.DigestMaker.means long.new) }
{
    for j in 0..leaves.of.header.parties() {
        let commitment = commitment(short, leaves, hidden, j);
        long.take(commitment.as_slice()).unwrap();
    }
}

/// Takes party j's audited shares and product share, the hidden one's as they are found.
fn take_party<D: DigestMaker>(
    short: &mut D,
    long: &mut D,
    known: Known<'_>,
    j: usize,
    shares: &mut [u16],
    bench: &mut [u16],
    product: &mut [u16],
)
    requires party { j < parties (parameters known.leaves.of.header) }
    requires shares { length shares.old ≡ (parameters known.leaves.of.header).m }
    requires bench { length bench.old ≡ bench_words (parameters known.leaves.of.header) }
    requires room { length product.old ≡ (parameters known.leaves.of.header).n * (parameters known.leaves.of.header).c }
    requires ready { Ready most_shown (D.DigestMaker.means long.old) }
    ensures { Took (party_text D.DigestMaker.function known.entry j) (D.DigestMaker.means long.old) (D.DigestMaker.means long.new) }
{
    let Known {
        leaves,
        seed_a,
        flags,
        offsets,
        hidden,
    } = known;
    let kept = Kept {
        header: leaves.of.header,
        flags,
    };
    match hidden {
        Some(hidden) if hidden.party == j => {
            take_found(long, kept, seed_a, hidden.has, shares, bench, product);
        }
        _ => {
            hold_shares(short, leaves, offsets, j, shares);
            take_shown(long, kept, seed_a, shares, bench, product);
        }
    }
}

/// Takes what all parties give to text 7.
pub fn take_parties<D: DigestMaker>(
    short: &mut D,
    long: &mut D,
    known: Known<'_>,
    shares: &mut [u16],
    bench: &mut [u16],
    product: &mut [u16],
)
    requires shares { length shares.old ≡ (parameters known.leaves.of.header).m }
    requires bench { length bench.old ≡ bench_words (parameters known.leaves.of.header) }
    requires room { length product.old ≡ (parameters known.leaves.of.header).n * (parameters known.leaves.of.header).c }
    requires ready { Ready (256 * most_shown) (D.DigestMaker.means long.old) }
    ensures { Took (parts (parties (parameters known.entry.leaves.of.header)) (party_text D.DigestMaker.function known.entry)) (D.DigestMaker.means long.old) (D.DigestMaker.means long.new) }
{
    for j in 0..known.leaves.of.header.parties() {
        take_party(short, long, known, j, shares, bench, product);
    }
}
