//! An entry, as a book hands it out.

/// The parts of an entry, where they lie in the book's memory.
#[derive(Clone, Copy)]
pub struct Stored<'a> {
    pub record: &'a [u8],
    /// The hidden party of each repetition.
    pub hidden: &'a [u8],
    /// The flags as bits.
    pub flags: &'a [u8],
}
