//! A book over a memory that was lent to it.
ghost use Rattle.protocol.specs.Book.{Intact};

/// Entries end to end at the front of the memory, each of them well-formed.
// memory with its counts beside it: it is lent, and there is no heap
#[derive(Drop)]
pub struct Book<'a> {
    pub(crate) memory: &'a mut [u8],
    /// How many bytes the entries have.
    pub(crate) used: usize,
    /// How many entries there are.
    pub(crate) count: usize,
    ghost intact: { Intact record { memory = memory.now; used = used; count = count } },
}
