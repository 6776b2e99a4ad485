//! Values: sampled from words, as residues modulo q, and as bytes.
ghost use Rattle.std.specs.Prelude.{◌≡◌, ℕ, ◌*◌, ◌%◌, ◌≤◌, not, map, length};
ghost use Rattle.std.specs.List.{range_with_len};
ghost use Rattle.protocol.specs.Parameters.{modulus, bound, table};
ghost use Rattle.protocol.specs.Residues.{residue, residue_in};
ghost use Rattle.protocol.specs.Streams.{stream_word};
ghost use Rattle.protocol.specs.Sampling.{exceeded, sampled, Within, beyond, byte_of, signed};
ghost use Rattle.lattice.specs.Lines.{at};
ghost use Rattle.protocol.specs.Sets.{number};

use protocol::set::Set;

/// How many entries of a table t exceeds.
fn exceeded(table: &[u16], t: u16) -> u8
    requires { length table.now ≤ 100 }
    ensures { result ≡ exceeded table.now t }
{
    // no `filter` and `count`: they branch at each entry
    table.iter().map(|entry| u8::from(*entry < t)).sum()
}

/// The value that a word stands for: bit 0 is the sign, and the size is how many entries of the set's table the other fifteen bits exceed.
pub fn sample(set: Set, word: u16) -> i8
    ensures value { result ≡ sampled (table (number set)) word }
    ensures small { Within (bound (number set)) result }
{
    let sign = word & 1;
    let t = word >> 1;
    let size = exceeded(set.table(), t) as i8;
    if sign == 1 { -size } else { size }
}

/// A value modulo q.
pub fn residue(set: Set, value: i8) -> u16
    ensures { result ≡ residue (modulus (number set)) value }
{
    i16::from(value).cast_unsigned() & set.mask()
}

/// A value as a byte, in two's complement.
// this and the next are one call of the library each: they are there for the words of their contracts
pub fn to_byte(value: i8) -> u8
    ensures { result ≡ byte_of value }
{
    value.cast_unsigned()
}

/// The value that a byte stands for.
pub fn from_byte(byte: u8) -> i8
    ensures { result ≡ signed byte }
{
    byte.cast_signed()
}

/// Whether a value lies from minus the bound of its set to the bound.
pub fn in_range(set: Set, value: i8) -> bool
    ensures { result ≡ not (beyond (bound (number set)) value) }
{
    value.unsigned_abs() <= set.bound()
}

/// Each word becomes what f makes of it.
fn change_each<F: Fn(u16) -> u16>(words: &mut [u16], f: F)
    requires { F.IsAlwaysCallable f }
    ensures { (h : ℕ → ℕ) → ((x y : ℕ) → F.post f x y → y ≡ h x) → words.new ≡ map h words.old }
{
    for word in words.iter_mut() {
        *word = f(*word);
    }
}

/// Each word becomes the value that it stands for, modulo q.
pub fn sample_all(set: Set, words: &mut [u16])
    ensures { words.new ≡ map (λ w. residue (modulus (number set)) (sampled (table (number set)) w)) words.old }
{
    change_each(words, |word| residue(set, sample(set, word)));
}

/// Each word modulo q.
pub fn reduce_all(set: Set, words: &mut [u16])
    ensures { words.new ≡ map (λ w. w % modulus (number set)) words.old }
{
    change_each(words, |word| word & set.mask());
}

/// Numbers of two bytes each.
pub fn read_words(bytes: &[u8], out: &mut [u16])
    requires { length bytes.now ≡ 2 * length out.old }
    ensures { out.new ≡ map (stream_word (at bytes.now)) (range_with_len 0 (length out.old)) }
{
    let (pairs, _) = bytes.as_chunks::<2>();
    for (t, word) in out.iter_mut().enumerate() {
        *word = u16::from_le_bytes(pairs[t]);
    }
}

/// Numbers of two bytes each, modulo q: the shares of a party, or a row of A.
pub fn read_residues(set: Set, bytes: &[u8], out: &mut [u16])
    requires { length bytes.now ≡ 2 * length out.old }
    ensures { out.new ≡ map (residue_in (modulus (number set)) (at bytes.now)) (range_with_len 0 (length out.old)) }
{
    read_words(bytes, out);
    reduce_all(set, out);
}
