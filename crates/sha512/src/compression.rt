//! The compression function of SHA-512.
ghost use Rattle.std.specs.Prelude.{◌≡◌, ◌/◌, ◌^◌, ◌<◌, ◌≤◌, bit_xor};
ghost use Rattle.std.specs.Int.{rotate_right, w64};
ghost use Rattle.sha512.specs.Sha512.{ch, maj, next_word, schedule, round, rounds, sums, compressed};

use crate::tables::ROUND_CONSTANTS;
use std::array;

/// The bits of y where x has a one, and of z where it has a zero.
fn choose(x: u64, y: u64, z: u64) -> u64
    ensures { result ≡ ch x y z }
{
    (x & y) ^ (!x & z)
}

/// In each place the bit that at least two of the three have.
fn majority(x: u64, y: u64, z: u64) -> u64
    ensures { result ≡ maj x y z }
{
    (x & y) ^ (x & z) ^ (y & z)
}

/// The word rotated to the right by each of three amounts.
fn big_sigma(x: u64, a: u32, b: u32, c: u32) -> u64
    ensures { result ≡ bit_xor (bit_xor (rotate_right w64 x a) (rotate_right w64 x b)) (rotate_right w64 x c) }
{
    x.rotate_right(a) ^ x.rotate_right(b) ^ x.rotate_right(c)
}

/// The word rotated to the right by two amounts, and shifted by the third.
fn small_sigma(x: u64, a: u32, b: u32, c: u32) -> u64
    requires { c < 64 }
    ensures { result ≡ bit_xor (bit_xor (rotate_right w64 x a) (rotate_right w64 x b)) (x / 2 ^ c) }
{
    x.rotate_right(a) ^ x.rotate_right(b) ^ (x >> c)
}

/// Word t of the schedule, from the words before it.
fn next_word(schedule: &[u64; 80], t: usize) -> u64
    requires past { 16 ≤ t }
    requires place { t < 80 }
    ensures { result ≡ next_word schedule.now t }
{
    small_sigma(schedule[t - 2], 19, 61, 6)
        .wrapping_add(schedule[t - 7])
        .wrapping_add(small_sigma(schedule[t - 15], 1, 8, 7))
        .wrapping_add(schedule[t - 16])
}

/// Writes the message schedule of a block, in place: as a result it would be copied, and hashing would take longer.
fn write_schedule(words: &mut [u64; 80], block: &[u8; 128])
    ensures { words.new ≡ schedule block.now 80 }
{
    let (chunks, _) = block.as_chunks::<8>();
    for (t, chunk) in chunks.iter().enumerate() {
        words[t] = u64::from_be_bytes(*chunk);
    }
    // Each further word is made of four before it, which no iterator gives: an index.
    for t in 16..80 {
        words[t] = next_word(words, t);
    }
}

/// One round on the working words, with the round's constant and its word of the schedule.
fn one_round(v: [u64; 8], constant: u64, word: u64) -> [u64; 8]
    ensures { result ≡ round v constant word }
{
    let [a, b, c, d, e, f, g, h] = v;
    let sum1 = h
        .wrapping_add(big_sigma(e, 14, 18, 41))
        .wrapping_add(choose(e, f, g))
        .wrapping_add(constant)
        .wrapping_add(word);
    let sum2 = big_sigma(a, 28, 34, 39).wrapping_add(majority(a, b, c));
    [
        sum1.wrapping_add(sum2),
        a,
        b,
        c,
        d.wrapping_add(sum1),
        e,
        f,
        g,
    ]
}

/// The words after all rounds.
fn all_rounds(words: [u64; 8], schedule: &[u64; 80]) -> [u64; 8]
    ensures { result ≡ rounds words schedule.now 80 }
{
    let mut v = words;
    for (constant, word) in ROUND_CONSTANTS.iter().zip(schedule) {
        let next = one_round(v, *constant, *word);
        v = next;
    }
    v
}

/// The sums, word by word.
fn added(words: [u64; 8], v: [u64; 8]) -> [u64; 8]
    ensures { result ≡ sums words v }
{
    array::from_fn(|k| words[k].wrapping_add(v[k]))
}

/// Brings one more block into the words.
pub(crate) fn compress(words: &mut [u64; 8], block: &[u8; 128])
    ensures { words.new ≡ compressed words.old block.now }
{
    let mut schedule = [0; 80];
    write_schedule(&mut schedule, block);
    let v = all_rounds(*words, &schedule);
    *words = added(*words, v);
}
