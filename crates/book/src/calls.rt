//! What can be done with a book.
ghost use Rattle.std.specs.Prelude.{◌≡◌, ◌+◌, ◌-◌, ◌<◌, ◌≤◌, length, MatchOption, slice_index_or};
ghost use Rattle.protocol.specs.Book.{empty, appended, entries_of, entry_at, no_entry, read_bytes, reads};
ghost use Rattle.protocol.specs.Effects.{written};
ghost use Rattle.protocol.specs.Guarantee.{Guarantee};
ghost use Rattle.protocol.specs.Layout.{entry_length};
ghost use Rattle.protocol.specs.Of.{parameters};
ghost use Rattle.book.specs.Entries.{Begins, Found};
ghost use Rattle.book.specs.Of.{state_of, entry_of, SameMemory};

use crate::book::Book;
use crate::cut::{LENGTH_BYTES, body_length, cut};
use crate::entry::NewEntry;
use crate::lay::lay;
use crate::stored::Stored;
use protocol::fault::Fault;

impl<'a> Book<'a> {
    /// An empty book over a memory, whose bytes stay as they are until an entry is laid over them.
    pub fn new(memory: &'a mut [u8]) -> Book<'a>
        ensures state { state_of result ≡ empty memory.old }
        ensures same { result.memory.ghost_name ≡ memory.entry.ghost_name }
        ensures guarantee { Guarantee }
    {
        Book {
            memory,
            used: 0,
            count: 0,
        }
    }

    /// How many entries there are.
    pub fn len(&self) -> usize
        ensures { result ≡ (state_of self.now).count }
    {
        self.count
    }

    /// How many bytes are free.
    pub fn room(&self) -> usize
        ensures { result ≡ length (state_of self.now).memory - (state_of self.now).used }
    {
        self.memory.len() - self.used
    }

    /// Entry k where it lies, and all behind it: from the front on, each entry tells by its sizes where the next one begins.
    fn reach(&self, k: usize) -> &[u8]
        requires { k < self.now.count }
        ensures begins { Begins result.now }
        ensures is { entry_at result.now ≡ slice_index_or (entries_of (state_of self.now)) k no_entry }
    {
        let mut rest: &[u8] = self.memory;
        for _ in 0..k {
            rest = &rest[LENGTH_BYTES + body_length(rest)..];
        }
        rest
    }

    /// Writes the bytes of entry k to the front of an output and answers how many: the record, the hidden parties, the flags as bits.
    pub fn read(&self, k: usize, out: &mut [u8]) -> Result<usize, Fault>
        ensures says { result ≡ reads (state_of self.now) k (length out.old) }
        ensures writes { out.new ≡ written result (read_bytes (slice_index_or (entries_of (state_of self.now)) k no_entry)) out.old }
    {
        if k >= self.count {
            return Err(Fault::Missing { number: k });
        }
        let entry = self.reach(k);
        let due = body_length(entry);
        if out.len() < due {
            return Err(Fault::Output { due });
        }
        out[..due].copy_from_slice(&entry[LENGTH_BYTES..LENGTH_BYTES + due]);
        Ok(due)
    }

    /// Lays one entry more behind the others and answers its number.
    pub fn append(&mut self, entry: NewEntry) -> usize
        requires { (state_of self.old).used + entry_length (parameters entry.header) ≤ length (state_of self.old).memory }
        ensures number { result ≡ (state_of self.old).count }
        ensures state { state_of self.new ≡ appended (state_of self.old) (entry_of entry.entry) }
        ensures same { SameMemory self.old self.new }
    {
        let at = self.used;
        let number = self.count;
        lay(&mut self.memory[at..], entry);
        self.used = at + entry.header.entry_length();
        self.count = number + 1;
        number
    }

    /// Entry k where it lies, if there is one.
    pub fn entry(&self, k: usize) -> Option<Stored<'_>>
        ensures { MatchOption result ((state_of self.now).count ≤ k) (Found (state_of self.now) k) }
    {
        if k >= self.count {
            return None;
        }
        Some(cut(self.reach(k)))
    }
}
