//! Entries as bytes of a book's memory.
ghost use Rattle.std.specs.Prelude.{◌≡◌, ◌≤◌, ◌++◌, length, drop};
ghost use Rattle.protocol.specs.Book.{entry_bytes};
ghost use Rattle.protocol.specs.Layout.{entry_length};
ghost use Rattle.protocol.specs.Of.{parameters};
ghost use Rattle.book.specs.Of.{entry_of};

use crate::cut::LENGTH_BYTES;
use crate::entry::NewEntry;
use challenge::flags::pack;

/// Lays an entry over the front of a memory, and leaves all else as it was.
pub(crate) fn lay(memory: &mut [u8], entry: NewEntry)
    requires { entry_length (parameters entry.header) ≤ length memory.old }
    ensures { memory.new ≡ entry_bytes (entry_of entry.entry) ++ drop (length (entry_bytes (entry_of entry.entry))) memory.old }
{
    let (length, rest) = memory.split_at_mut(LENGTH_BYTES);
    let (record, rest) = rest.split_at_mut(entry.record.len());
    let (hidden, rest) = rest.split_at_mut(entry.hidden.len());
    let (flags, _) = rest.split_at_mut(entry.header.flag_length());
    length.copy_from_slice(&(entry.record.len() as u32).to_le_bytes());
    record.copy_from_slice(entry.record);
    hidden.copy_from_slice(entry.hidden);
    pack(entry.flags, flags);
}
