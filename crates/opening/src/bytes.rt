//! Bytes and rows of numbers, written over an output from a place on.
ghost use Rattle.std.specs.Prelude.{◌≡◌, ◌+◌, ◌*◌, ◌≤◌, length};
ghost use Rattle.std.specs.List.{flat_map};
ghost use Rattle.protocol.specs.Book.{wrote};
ghost use Rattle.protocol.specs.Bytes.{le16};

/// Writes these bytes: one call of the library, with a contract in the words of the format.
pub fn put(out: &mut [u8], at: usize, bytes: &[u8])
    requires { at + length bytes.now ≤ length out.old }
    ensures { out.new ≡ wrote at bytes.now out.old }
{
    out[at..at + bytes.len()].copy_from_slice(bytes);
}

/// Writes these numbers, two bytes each.
pub fn put_words(out: &mut [u8], at: usize, words: &[u16])
    requires { at + 2 * length words.now ≤ length out.old }
    ensures { out.new ≡ wrote at (flat_map le16 words.now) out.old }
{
    for (i, word) in words.iter().enumerate() {
        put(out, at + 2 * i, &word.to_le_bytes());
    }
}
