//! The SHA-512 hash of a text.
ghost use Rattle.std.specs.Prelude.{◌≡◌};
ghost use Rattle.sha512.specs.Hash.{hash};

use crate::hasher::Hasher;
use crate::hashing::word_bytes;

/// The SHA-512 hash of a text.
pub fn sha512(text: &[u8]) -> [u8; 64]
    ensures { result ≡ hash text.now }
{
    let mut hasher = Hasher::new();
    hasher.take(text);
    word_bytes(&hasher.finish())
}
