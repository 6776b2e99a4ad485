//! A hasher that takes a text piece by piece.

/// The words after the whole blocks so far, the bytes of a block that is not full yet, and how many bytes were taken.
// a block of fixed size, filled as far as the count tells: there is no heap
#[derive(Clone, Copy)]
pub(crate) struct Hasher {
    pub(crate) words: [u64; 8],
    pub(crate) block: [u8; 128],
    pub(crate) total: u64,
}
