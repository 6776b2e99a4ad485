//! The hidden party of a repetition.

/// A party whose leaf seed is not known, and what is known of it.
#[derive(Clone, Copy)]
pub struct Hidden<T> {
    pub party: usize,
    pub has: T,
}
