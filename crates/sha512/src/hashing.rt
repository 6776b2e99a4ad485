//! How a hasher takes bytes, and the hash at the end.
ghost use Rattle.std.specs.Prelude.{◌≡◌, ◌+◌, ◌%◌, ◌≤◌, [], length, replicate};
ghost use Rattle.sha512.specs.Sha512.{initial};
ghost use Rattle.sha512.specs.Hash.{word_bytes};
ghost use Rattle.sha512.specs.Hashing.{HasTaken, ended};

use crate::compression::compress;
use crate::hasher::Hasher;
use crate::tables::INITIAL_WORDS;

/// Bytes of a block.
const BLOCK: usize = 128;

impl Hasher {
    /// A hasher that has taken nothing.
    pub(crate) fn new() -> Hasher
        ensures words { result.words ≡ initial }
        ensures block { result.block ≡ replicate 128 0 }
        ensures total { result.total ≡ 0 }
    {
        Hasher {
            words: INITIAL_WORDS,
            block: [0; BLOCK],
            total: 0,
        }
    }

    /// How many bytes wait for the block to be full.
    fn filled(&self) -> usize
        ensures { result ≡ self.now.total % 128 }
    {
        (self.total % 128) as usize
    }

    /// Takes bytes that the block has room for.
    fn take_few(&mut self, bytes: &[u8])
        requires room { self.old.total % 128 + length bytes.now ≤ 128 }
        ensures { HasTaken bytes.now self.old self.new }
    {
        let filled = self.filled();
        let end = filled + bytes.len();
        self.block[filled..end].copy_from_slice(bytes);
        self.total = self.total.wrapping_add(bytes.len() as u64);
        if end == BLOCK {
            compress(&mut self.words, &self.block);
        }
    }

    /// Takes a whole block, straight from the slice.
    fn take_block(&mut self, block: &[u8; BLOCK])
        requires none { self.old.total % 128 ≡ 0 }
        ensures taken { HasTaken block.now self.old self.new }
        ensures none { self.new.total % 128 ≡ 0 }
    {
        compress(&mut self.words, block);
        self.total = self.total.wrapping_add(BLOCK as u64);
    }

    /// Takes the next bytes of the text.
    pub(crate) fn take(&mut self, bytes: &[u8])
        ensures { HasTaken bytes.now self.old self.new }
    {
        let room = BLOCK - self.filled();
        if bytes.len() < room {
            self.take_few(bytes);
            return;
        }
        let (front, rest) = bytes.split_at(room);
        let (blocks, back) = rest.as_chunks::<BLOCK>();
        self.take_few(front);
        for block in blocks {
            self.take_block(block);
        }
        self.take_few(back);
    }

    /// The words of the hash of the text that was taken.
    pub(crate) fn finish(mut self) -> [u64; 8]
        ensures { result ≡ ended self [] }
    {
        let bits = (self.total as u128 * 8).to_be_bytes();
        let zeros = (239 - self.filled()) % BLOCK;
        let mut mark = [0; BLOCK];
        mark[0] = 0x80;
        self.take(&mark[..zeros + 1]);
        self.take(&bits);
        self.words
    }
}

/// The 64 bytes of the words, high byte first.
pub(crate) fn word_bytes(words: &[u64; 8]) -> [u8; 64]
    ensures { result ≡ word_bytes words.now }
{
    let mut bytes = [0; 64];
    // By place: of what is written through `as_chunks_mut` a proof knows nothing, and byte by byte it takes longer.
    for (k, word) in words.iter().enumerate() {
        bytes[8 * k..8 * k + 8].copy_from_slice(&word.to_be_bytes());
    }
    bytes
}
