//! The digest maker that stretches SHA-512 to a stream.
ghost use Rattle.std.specs.Prelude.{◌≡◌, ◌+◌, ◌/◌, ◌≤◌, ◌&&◌, [], length, replicate, is_ok, nat_le, IfErr, IfOk};
ghost use Rattle.digest.specs.Making.{limit};
ghost use Rattle.protocol.specs.Streams.{first_bytes};
ghost use Rattle.sha512.specs.Sha512.{initial};
ghost use Rattle.sha512.specs.Stretched.{stretched};
ghost use Rattle.sha512.specs.Stretching.{stream_block, stream_from, KeptBlock};
ghost use Rattle.sha512.specs.Streaming.{stretched_bytes};
ghost use Rattle.std.proofs.Common.{rules, arith};

use crate::hasher::Hasher;
use crate::hashing::word_bytes;
use digest::maker::{DigestMaker, LIMIT};
use protocol::fault::Fault;

/// A maker whose stream is the hashes of the text and a block number, block after block.
#[derive(Drop)]
pub struct Stretched {
    /// The hasher of the text so far.
    hasher: Hasher,
    /// How many bytes were drawn.
    drawn: u64,
    /// The block of the stream of which a part was drawn.
    block: [u8; 64],
    ghost taken_limit: { hasher.total ≤ limit },
    ghost drawn_limit: { drawn ≤ limit },
    ghost kept_block: { KeptBlock hasher drawn block },
}

/// Block `number` of the stream of the text that the hasher has taken.
fn stream_block(hasher: &Hasher, number: u32) -> [u8; 64]
    requires room { hasher.now.total ≤ limit }
    ensures { result ≡ stream_block hasher.now [] number }
{
    let mut whole = *hasher;
    whole.take(&number.to_be_bytes());
    word_bytes(&whole.finish())
}

impl Stretched {
    /// A maker that counts so many bytes as taken and so many as drawn, and is a new one but for that: for trying what a maker answers at
    /// its limits, where real bytes would take minutes. Until it is begun, what it gives is of no text that it took. It is refused past the
    /// limits.
    pub fn with_counts(taken: u64, drawn: u64) -> Result<Stretched, Fault>
        ensures answer { is_ok result ≡ (nat_le taken limit && nat_le drawn limit) }
        ensures counts { IfOk result (λ m. (m.hasher.total ≡ taken) × (m.drawn ≡ drawn)) }
        ensures new { IfOk result (λ m. (m.hasher.words ≡ initial) × (m.hasher.block ≡ replicate 128 0) × (m.block ≡ stream_block m.hasher [] (drawn / 64))) }
        ensures refusal { IfErr result (λ f. f ≡ Fault.PastLimit) }
    {
        if taken > LIMIT || drawn > LIMIT {
            return Err(Fault::PastLimit);
        }
        let mut hasher = Hasher::new();
        hasher.total = taken;
        let block = stream_block(&hasher, (drawn / 64) as u32);
        Ok(Stretched {
            hasher,
            drawn,
            block,
        })
    }

    /// Forgets the text: nothing of it is left in any field.
    fn clear(&mut self)
        ensures words { self.new.hasher.words ≡ initial }
        ensures waiting { self.new.hasher.block ≡ replicate 128 0 }
        ensures taken { self.new.hasher.total ≡ 0 }
        ensures drawn { self.new.drawn ≡ 0 }
        ensures block { self.new.block ≡ replicate 64 0 }
    {
        self.drawn = 0;
        self.block = [0; 64];
        self.hasher = Hasher::new();
    }

    /// Makes the block that the next byte is drawn from, unless it is kept.
    fn refresh(&mut self)
        ensures hasher { self.new.hasher ≡ self.old.hasher }
        ensures drawn { self.new.drawn ≡ self.old.drawn }
        ensures block { self.new.block ≡ stream_block self.old.hasher [] (self.old.drawn / 64) }
    {
        if self.drawn % 64 == 0 {
            self.block = stream_block(&self.hasher, (self.drawn / 64) as u32);
        }
    }

    /// Fills the buffer with the next bytes of the stream.
    fn fill(&mut self, out: &mut [u8])
        requires room { self.old.drawn + length out.old ≤ limit }
        ensures hasher { self.new.hasher ≡ self.old.hasher }
        ensures drawn { self.new.drawn ≡ self.old.drawn + length out.old }
        ensures bytes { out.new ≡ first_bytes (stream_from self.old.hasher self.old.drawn []) (length out.old) }
    {
        for byte in out.iter_mut() {
            self.refresh();
            *byte = self.block[(self.drawn % 64) as usize];
            self.drawn += 1;
        }
    }
}

impl DigestMaker for Stretched {
    ghost function = { stretched };

    ghost means = { λ s. record { taken = s.hasher.total; drawn = s.drawn; rule = stream_from s.hasher s.drawn } };

    ghost bytes = { stretched_bytes };

    ghost within = { Prim.first_of (Prim.search rules, Prim.grind (arith, Self.row.coded.inj)) };

    fn new() -> Self {
        Stretched {
            hasher: Hasher::new(),
            drawn: 0,
            block: [0; 64],
        }
    }

    fn begin(&mut self) {
        self.clear();
    }

    fn take(&mut self, bytes: &[u8]) -> Result<(), Fault> {
        if self.drawn > 0 {
            return Err(Fault::Turn);
        }
        if bytes.len() as u64 > LIMIT - self.hasher.total {
            return Err(Fault::PastLimit);
        }
        self.hasher.take(bytes);
        Ok(())
    }

    fn draw(&mut self, out: &mut [u8]) -> Result<(), Fault> {
        if out.len() as u64 > LIMIT - self.drawn {
            return Err(Fault::PastLimit);
        }
        self.fill(out);
        Ok(())
    }

    fn bytes_taken(&self) -> u64 {
        self.hasher.total
    }

    fn bytes_drawn(&self) -> u64 {
        self.drawn
    }
}
