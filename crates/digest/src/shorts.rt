//! Short bytes from a slice, and as one.
ghost use Rattle.std.specs.Prelude.{◌≡◌, ◌<◌, ◌≤◌, cond, length, MatchOption};
ghost use Rattle.digest.specs.Short.{short_bytes};

use crate::short::{MOST, ShortBytes};

impl From<[u8; 32]> for ShortBytes {
    ghost from_gives = { λ bytes s. short_bytes s ≡ bytes };

    fn from(bytes: [u8; 32]) -> ShortBytes {
        let mut held = [0; 64];
        held[0..32].copy_from_slice(&bytes);
        ShortBytes {
            bytes: held,
            width: 32,
        }
    }
}

impl ShortBytes {
    /// These bytes, unless there are more than fit.
    pub fn new(bytes: &[u8]) -> Option<ShortBytes>
        ensures { MatchOption result (64 < length bytes.now) (λ s. short_bytes s ≡ bytes.now) }
    {
        if bytes.len() > MOST {
            return None;
        }
        let width = bytes.len();
        let mut held = [0; 64];
        held[0..width].copy_from_slice(bytes);
        Some(ShortBytes { bytes: held, width })
    }

    /// The bytes that it holds.
    pub fn as_slice(&self) -> &[u8]
        ensures bytes { result.now ≡ short_bytes self.now }
        ensures few { length result.now ≤ 64 }
    {
        &self.bytes[0..self.width]
    }
}
