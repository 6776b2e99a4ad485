//! A key as bytes: S mod q, then B.
ghost use Rattle.std.specs.Prelude.{◌≡◌, ◌+◌, ◌*◌, ◌≤◌, ◌++◌, length, drop};
ghost use Rattle.std.specs.List.{flat_map};
ghost use Rattle.protocol.specs.Book.{wrote};
ghost use Rattle.protocol.specs.Bytes.{le16};
ghost use Rattle.protocol.specs.Of.{parameters};
ghost use Rattle.protocol.specs.Parameters.{sigma};
ghost use Rattle.shares.specs.Sizes.{bench_words};
ghost use Rattle.sharing.specs.Sizes.{scratch_words};
ghost use Rattle.opening.specs.Keys.{secret_words, public_words, key_text};

use crate::bytes::put_words;
use lattice::kept::gather_kept;
use shares::kept::Kept;
use shares::product::share_product;
use sharing::memory::{Scratch, cut_scratch};

/// Writes S: the first half of the kept values; `gathered` is worked in.
fn put_secret(kept: Kept<'_>, values: &[u16], gathered: &mut [u16], out: &mut [u8], at: usize)
    requires values { length values.now ≡ (parameters kept.header).m }
    requires gathered { length gathered.old ≡ sigma (parameters kept.header) }
    requires room { at + 2 * ((parameters kept.header).n * (parameters kept.header).c) ≤ length out.old }
    ensures { out.new ≡ wrote at (flat_map le16 (secret_words (parameters kept.entry.header) kept.entry.flags.now values.now)) out.old }
{
    gather_kept(values, kept.flags, gathered);
    put_words(out, at, &gathered[0..kept.header.entries()]);
}

/// Writes B; `key` and `bench` are worked in.
pub(crate) fn put_public(
    kept: Kept<'_>,
    seed_a: &[u8; 16],
    values: &[u16],
    key: &mut [u16],
    bench: &mut [u16],
    out: &mut [u8],
    at: usize,
)
    requires values { length values.now ≡ (parameters kept.header).m }
    requires key { length key.old ≡ (parameters kept.header).n * (parameters kept.header).c }
    requires bench { length bench.old ≡ bench_words (parameters kept.header) }
    requires room { at + 2 * ((parameters kept.header).n * (parameters kept.header).c) ≤ length out.old }
    ensures { out.new ≡ wrote at (flat_map le16 (public_words (parameters kept.entry.header) seed_a.now kept.entry.flags.now values.now)) out.old }
{
    share_product(kept.header, seed_a, kept.flags, values, bench, key);
    put_words(out, at, key);
}

/// Writes the key that the kept values make to the front of an output: S mod q, then B.
pub fn write_key(
    kept: Kept<'_>,
    seed_a: &[u8; 16],
    values: &[u16],
    scratch: &mut [u16],
    out: &mut [u8],
)
    requires values { length values.now ≡ (parameters kept.header).m }
    requires scratch { scratch_words (parameters kept.header) ≤ length scratch.old }
    requires room { 4 * ((parameters kept.header).n * (parameters kept.header).c) ≤ length out.old }
    ensures { let p = parameters kept.entry.header in out.new ≡ key_text p seed_a.now kept.entry.flags.now values.now ++ drop (4 * (p.n * p.c)) out.old }
{
    let header = kept.header;
    let half = 2 * header.entries();
    let Scratch {
        shares,
        key,
        bench,
        ..
    } = cut_scratch(header, scratch);
    put_secret(kept, values, &mut shares[0..header.kept()], out, 0);
    put_public(kept, seed_a, values, key, bench, out, half);
}
