//! SHAKE256 as a digest maker.
ghost use Rattle.std.specs.Prelude.{◌≡◌, ℕ, ◌&&◌, [], replicate, is_ok, nat_le, IfErr, IfOk};
ghost use Rattle.digest.specs.Making.{limit};
ghost use Rattle.keccak.specs.Sponge.{shake256};
ghost use Rattle.keccak.specs.Meaning.{by_squeezing, still_to_come, meaning, Blank};
ghost use Rattle.keccak.specs.Squeezed.{shake_byte};
ghost use Rattle.std.proofs.Common.{rules, arith};

pub use crate::state::Shake256;
use crate::state::Sponge;
use digest::maker::{DigestMaker, LIMIT};
use protocol::fault::Fault;

impl Shake256 {
    /// A maker that counts so many bytes as taken and so many as drawn, and is a new one but for that: for trying what a maker answers at
    /// its limits, where real bytes would take minutes. Until it is begun, what it gives is of no text that it took. It is refused past the
    /// limits.
    pub fn with_counts(taken: u64, drawn: u64) -> Result<Shake256, Fault>
        ensures answer { is_ok result ≡ (nat_le taken limit && nat_le drawn limit) }
        ensures counts { IfOk result (λ m. ((meaning m).taken ≡ taken) × ((meaning m).drawn ≡ drawn)) }
        ensures new { IfOk result (λ m. (m.sponge.lanes ≡ replicate 25 0) × (m.sponge.block ≡ replicate 136 0) × (m.sponge.filled ≡ 0) × (m.sponge.used ≡ 0)) }
        ensures refusal { IfErr result (λ f. f ≡ Fault.PastLimit) }
    {
        if taken > LIMIT || drawn > LIMIT {
            return Err(Fault::PastLimit);
        }
        let mut maker = Shake256::blank();
        maker.taken = taken;
        maker.drawn = drawn;
        Ok(maker)
    }

    // Zeros everywhere.
    fn blank() -> Shake256
        ensures { Blank result }
    {
        Shake256 {
            sponge: Sponge {
                lanes: [0; 25],
                block: [0; 136],
                filled: 0,
                used: 0,
            },
            taken: 0,
            drawn: 0,
        }
    }

    // Zeros everywhere: nothing of a text stays.
    fn clear(&mut self)
        ensures { Blank self.new }
    {
        *self = Shake256::blank();
    }

    // Ends the text, if nothing was drawn yet: what waits is padded and absorbed.
    fn end_text(&mut self)
        ensures rest { (i : ℕ) → by_squeezing self.new i ≡ still_to_come self.old [] i }
        ensures taken { self.new.taken ≡ self.old.taken }
        ensures drawn { self.new.drawn ≡ self.old.drawn }
    {
        if self.drawn == 0 {
            self.sponge.close();
        }
    }
}

impl DigestMaker for Shake256 {
    ghost function = { shake256 };

    ghost means = { meaning };

    ghost bytes = { shake_byte 136 };

    ghost within = { Prim.first_of (Prim.search rules, Prim.grind (arith, Self.row.coded.inj)) };

    fn new() -> Self {
        Shake256::blank()
    }

    fn begin(&mut self) {
        self.clear();
    }

    fn take(&mut self, bytes: &[u8]) -> Result<(), Fault> {
        if self.drawn > 0 {
            return Err(Fault::Turn);
        }
        let more = bytes.len() as u64;
        if more > LIMIT - self.taken {
            return Err(Fault::PastLimit);
        }
        self.sponge.take_in(bytes);
        self.taken += more;
        Ok(())
    }

    fn draw(&mut self, out: &mut [u8]) -> Result<(), Fault> {
        let more = out.len() as u64;
        if more > LIMIT - self.drawn {
            return Err(Fault::PastLimit);
        }
        if more == 0 {
            return Ok(());
        }
        self.end_text();
        self.sponge.squeeze(out);
        self.drawn += more;
        Ok(())
    }

    fn bytes_taken(&self) -> u64 {
        self.taken
    }

    fn bytes_drawn(&self) -> u64 {
        self.drawn
    }
}
