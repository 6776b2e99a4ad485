//! A few bytes, held by value: a salt, a commitment or a digest, whatever its width is.
ghost use Rattle.std.specs.Prelude.{◌≤◌};

/// How many bytes fit.
pub const MOST: usize = 64;

/// Up to 64 bytes.
// an array with its width beside it: there is no heap, and short bytes are copied as values
#[derive(Clone, Copy)]
pub struct ShortBytes {
    pub(crate) bytes: [u8; 64],
    pub(crate) width: usize,
    ghost fits: { width ≤ 64 },
}
