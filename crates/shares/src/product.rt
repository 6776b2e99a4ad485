//! A party's product share, and the memory that it is computed in.
ghost use Rattle.std.specs.Prelude.{◌≡◌, ◌*◌, map, length};
ghost use Rattle.std.specs.List.{range_with_len};
ghost use Rattle.protocol.specs.Flags.{ones};
ghost use Rattle.protocol.specs.Of.{parameters};
ghost use Rattle.protocol.specs.Parameters.{sigma};
ghost use Rattle.lattice.specs.Lines.{at};
ghost use Rattle.shares.specs.Shown.{product_of};
ghost use Rattle.shares.specs.Sizes.{bench_words};

use lattice::kept::gather_kept;
use lattice::rows::multiply;
use protocol::header::Header;
use protocol::set::Set;

/// What a product is computed in: the kept shares, S of them by columns, one row of A.
#[derive(Drop)]
struct Bench<'a> {
    kept: &'a mut [u16],
    columns: &'a mut [u16],
    row: &'a mut [u16],
}

fn cut_bench(header: Header, bench: &mut [u16]) -> Bench<'_>
    requires { length bench.old ≡ bench_words (parameters header) }
    ensures kept { length result.kept.now ≡ sigma (parameters header) }
    ensures columns { length result.columns.now ≡ (parameters header).n * (parameters header).c }
    ensures row { length result.row.now ≡ (parameters header).n }
{
    let kept = header.kept();
    let (kept, rest) = bench.split_at_mut(kept);
    let (columns, row) = rest.split_at_mut(header.entries());
    Bench { kept, columns, row }
}

/// The key rule over the kept ones of a row.
// flags and no `Kept`: it asks for as many as there are shares, and not for as many as a header has values
pub fn share_product(
    header: Header,
    seed_a: &[u8; 16],
    flags: &[u16],
    shares: &[u16],
    bench: &mut [u16],
    product: &mut [u16],
)
    requires flags { length flags.now ≡ length shares.now }
    requires kept { ones flags.now ≡ sigma (parameters header) }
    requires bench { length bench.old ≡ bench_words (parameters header) }
    requires room { length product.old ≡ (parameters header).n * (parameters header).c }
    ensures { product.new ≡ map (product_of (parameters header) seed_a.now flags.now (at shares.now)) (range_with_len 0 ((parameters header).n * (parameters header).c)) }
{
    let Bench { kept, columns, row } = cut_bench(header, bench);
    gather_kept(shares, flags, kept);
    multiply(
        header.set,
        header.c as usize,
        seed_a,
        kept,
        columns,
        row,
        product,
    );
}
