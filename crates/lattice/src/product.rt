//! One row of A·S + E modulo q at a time. Every modulus divides 2^16, so that sums may wrap there and one mask at the end is exact.
ghost use Rattle.std.specs.Prelude.{◌≡◌, ℕ, ◌+◌, ◌*◌, ◌%◌, ◌<◌, ◌≤◌, length};
ghost use Rattle.protocol.specs.Parameters.{modulus};
ghost use Rattle.protocol.specs.Residues.{dot};
ghost use Rattle.lattice.specs.Lines.{at, Turned, row_entry};
ghost use Rattle.protocol.specs.Sets.{number};

use protocol::set::Set;

/// The inner product modulo 2^16.
fn inner(a: &[u16], b: &[u16]) -> u16
    requires { length b.now ≡ length a.now }
    ensures { result ≡ dot (length a.now) (at a.now) (at b.now) % 65536 }
{
    let mut sum = 0u16;
    // b by place: a zip asks at each turn whether either slice has ended
    for (t, x) in a.iter().enumerate() {
        sum = sum.wrapping_add(x.wrapping_mul(b[t]));
    }
    sum
}

/// How many terms a piece of a long row has.
const PIECE: usize = 128;

/// The same in pieces: a loop of 128 turns has no remainder to test, which makes the product a fifth faster. A row that has no whole
/// piece is one loop.
fn inner_in_pieces(a: &[u16], b: &[u16]) -> u16
    requires { length b.now ≡ length a.now }
    ensures { result ≡ dot (length a.now) (at a.now) (at b.now) % 65536 }
{
    if a.len() < PIECE {
        return inner(a, b);
    }
    let (pieces, rest) = a.as_chunks::<PIECE>();
    let (others, last) = b.as_chunks::<PIECE>();
    let mut sum = 0u16;
    for (x, y) in pieces.iter().zip(others) {
        sum = sum.wrapping_add(inner(x, y));
    }
    sum.wrapping_add(inner(rest, last))
}

/// Column l of S.
fn take_column(c: usize, l: usize, s: &[u16], column: &mut [u16])
    requires inside { l < c }
    requires whole { length s.now ≡ length column.old * c }
    ensures { (t : ℕ) → t < length column.old → at column.new t ≡ at s.now (t * c + l) }
{
    for (t, entry) in column.iter_mut().enumerate() {
        *entry = s[t * c + l];
    }
}

/// S by columns.
pub fn turn(n: usize, c: usize, s: &[u16], columns: &mut [u16])
    requires whole { length s.now ≡ n * c }
    requires room { length columns.old ≡ c * n }
    ensures { Turned n c s.now columns.new }
{
    // A column at a time: one loop over all entries would divide for each. No `chunks_exact_mut`: n may be 0.
    for l in 0..c {
        take_column(c, l, s, &mut columns[l * n..l * n + n]);
    }
}

/// One line of A·S + E, where `row` is a row of A; S stands by columns.
fn multiply_line(set: Set, row: &[u16], columns: &[u16], errors: &[u16], line: &mut [u16])
    requires columns { length columns.now ≡ length line.old * length row.now }
    requires errors { length errors.now ≡ length line.old }
    ensures { (l : ℕ) → l < length line.old → at line.new l ≡ row_entry (modulus (number set)) (length row.now) row.now columns.now (at errors.now l) l }
{
    let n = row.len();
    // No `chunks_exact` over the columns: n may be 0.
    for (l, entry) in line.iter_mut().enumerate() {
        let column = &columns[l * n..l * n + n];
        *entry = inner_in_pieces(row, column).wrapping_add(errors[l]) & set.mask();
    }
}

/// Row i of A·S + E into its place in out, where `row` is row i of A; S stands by columns, E row by row.
pub fn multiply_row(
    set: Set,
    c: usize,
    i: usize,
    row: &[u16],
    columns: &[u16],
    errors: &[u16],
    out: &mut [u16],
)
    requires columns { length columns.now ≡ c * length row.now }
    requires errors { i * c + c ≤ length errors.now }
    requires room { i * c + c ≤ length out.old }
    ensures fresh { (l : ℕ) → l < c → at out.new (i * c + l) ≡ row_entry (modulus (number set)) (length row.now) row.now columns.now (at errors.now (i * c + l)) l }
    ensures before { (k : ℕ) → k < i * c → at out.new k ≡ at out.old k }
    ensures after { (k : ℕ) → i * c + c ≤ k → at out.new k ≡ at out.old k }
{
    let (from, to) = (i * c, i * c + c);
    multiply_line(set, row, columns, &errors[from..to], &mut out[from..to]);
}
