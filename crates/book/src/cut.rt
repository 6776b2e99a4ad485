//! Entries, read off from the front of bytes.
ghost use Rattle.std.specs.Prelude.{◌≡◌, ◌≤◌, length};
ghost use Rattle.protocol.specs.Book.{entry_at, read_bytes};
ghost use Rattle.protocol.specs.Header.{parameters_of};
ghost use Rattle.protocol.specs.Parameters.{flag_length};
ghost use Rattle.book.specs.Entries.{Shows, Begins};

use crate::stored::Stored;

/// Bytes of the field that an entry begins with, which holds the record's length.
pub(crate) const LENGTH_BYTES: usize = 4;

/// How many bytes of hidden parties and of flags belong to a record: byte 12 is the number of repetitions, bytes 9 and 10 are M.
// no `read_header`: each header in a book has passed its tests, and a walk over the entries would make them again at each
fn sizes(bytes: &[u8]) -> (usize, usize)
    requires { 15 ≤ length bytes.now }
    ensures hidden { result.0 ≡ (parameters_of bytes.now).tau }
    ensures flags { result.1 ≡ flag_length (parameters_of bytes.now) }
{
    let values = u16::from_le_bytes([bytes[9], bytes[10]]);
    (bytes[12] as usize, (values as usize + 7) / 8)
}

/// How many bytes the entry that begins some bytes has behind its length field.
pub(crate) fn body_length(bytes: &[u8]) -> usize
    requires { Begins bytes.now }
    ensures { result ≡ length (read_bytes (entry_at bytes.now)) }
{
    let record = u32::from_le_bytes([bytes[0], bytes[1], bytes[2], bytes[3]]);
    let (hidden, flags) = sizes(&bytes[LENGTH_BYTES..]);
    record as usize + (hidden + flags)
}

/// The entry that begins some bytes. Its record tells the sizes of the other parts.
pub(crate) fn cut(bytes: &[u8]) -> Stored<'_>
    requires { Begins bytes.now }
    ensures { Shows (entry_at bytes.now) result }
{
    let (length, rest) = bytes.split_first_chunk::<LENGTH_BYTES>().unwrap();
    let (record, rest) = rest.split_at(u32::from_le_bytes(*length) as usize);
    let (hidden_bytes, flag_bytes) = sizes(record);
    let (hidden, rest) = rest.split_at(hidden_bytes);
    let (flags, _) = rest.split_at(flag_bytes);
    Stored {
        record,
        hidden,
        flags,
    }
}
