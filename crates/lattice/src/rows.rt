//! Rows of A, and the key that is made with them.
ghost use Rattle.std.specs.Prelude.{◌≡◌, ℕ, ◌*◌, ◌≤◌, ◌++◌, map, length};
ghost use Rattle.std.specs.List.{range_with_len};
ghost use Rattle.protocol.specs.Bytes.{le16};
ghost use Rattle.protocol.specs.Parameters.{modulus};
ghost use Rattle.protocol.specs.Residues.{matrix, product};
ghost use Rattle.protocol.specs.Streams.{first_bytes};
ghost use Rattle.keccak.specs.Sponge.{shake128};
ghost use Rattle.lattice.specs.Lines.{at};
ghost use Rattle.protocol.specs.Sets.{number};

use crate::product::{multiply_row, turn};
use crate::values::read_residues;
use keccak::shake128::shake128;
use protocol::set::Set;

/// The bytes of row i: SHAKE128 over i and seedA.
fn row_bytes(i: u16, seed: &[u8; 16], bytes: &mut [u8])
    ensures { bytes.new ≡ first_bytes (shake128 (le16 i ++ seed.now)) (length bytes.old) }
{
    let mut text = [0; 18];
    text[..2].copy_from_slice(&i.to_le_bytes());
    text[2..].copy_from_slice(seed);
    shake128(&text, bytes);
}

/// Row i of A by way of its bytes.
fn fill_row(set: Set, i: u16, seed: &[u8; 16], bytes: &mut [u8], row: &mut [u16])
    requires { length bytes.old ≡ 2 * length row.old }
    ensures { row.new ≡ map (matrix shake128 (modulus (number set)) seed.now i) (range_with_len 0 (length row.old)) }
{
    row_bytes(i, seed, bytes);
    read_residues(set, bytes, row);
}

/// Row i of A: its bytes in pairs, modulo q.
pub fn matrix_row(set: Set, i: u16, seed: &[u8; 16], row: &mut [u16])
    requires { length row.old ≤ 1344 }
    ensures { row.new ≡ map (matrix shake128 (modulus (number set)) seed.now i) (range_with_len 0 (length row.old)) }
{
    // by way of the bytes of the longest row: there is no heap
    let mut bytes = [0; 2688];
    let used = 2 * row.len();
    fill_row(set, i, seed, &mut bytes[..used], row);
}

/// B = A·S + E modulo q, with one row of A held at a time, in `row`; S and then E fill `secrets` row by row, and `columns` has room
/// for S. A party's product share is the same of its shares.
pub fn multiply(
    set: Set,
    c: usize,
    seed: &[u8; 16],
    secrets: &[u16],
    columns: &mut [u16],
    row: &mut [u16],
    out: &mut [u16],
)
    requires rows { length row.old ≤ 1344 }
    requires secrets { length secrets.now ≡ 2 * (length row.old * c) }
    requires columns { length columns.old ≡ c * length row.old }
    requires room { length out.old ≡ length row.old * c }
    ensures { out.new ≡ map (product (modulus (number set)) (length row.old) c (matrix shake128 (modulus (number set)) seed.now) (at secrets.now)) (range_with_len 0 (length row.old * c)) }
{
    let n = row.len();
    let (s, errors) = secrets.split_at(n * c);
    turn(n, c, s, columns);
    // No `chunks_exact_mut` over the lines of out: no contract tells what is written through it.
    for i in 0..n {
        matrix_row(set, i as u16, seed, row);
        multiply_row(set, c, i, row, columns, errors, out);
    }
}
