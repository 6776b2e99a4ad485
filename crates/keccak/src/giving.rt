//! How a sponge gives its stream: as many bytes as the rate from each state.
ghost use Rattle.std.specs.Prelude.{◌≡◌, ℕ, ◌+◌, ◌<◌, length, slice_index};
ghost use Rattle.keccak.specs.Sponge.{byte_of};
ghost use Rattle.keccak.specs.Meaning.{giving};

use crate::permutation::permute;
use crate::state::Sponge;
use crate::taking::put;

impl<const RATE: usize> Sponge<RATE> {
    // Writes the first bytes of the state into the block.
    fn unload(&mut self)
        ensures bytes { (k : ℕ) → k < RATE → slice_index self.new.block k ≡ byte_of self.old.lanes k }
        ensures lanes { self.new.lanes ≡ self.old.lanes }
        ensures used { self.new.used ≡ self.old.used }
    {
        for (i, lane) in self.lanes[..RATE / 8].iter().enumerate() {
            put(&mut self.block, 8 * i, &lane.to_le_bytes());
        }
    }

    // Permutes the state, if all its bytes were used.
    fn renew(&mut self)
        ensures left { self.new.used < RATE }
        ensures same { (i : ℕ) → giving RATE self.new i ≡ giving RATE self.old i }
    {
        if self.used == RATE {
            permute(&mut self.lanes);
            self.used = 0;
        }
    }

    // Fills the buffer with the next bytes of the stream. The block is overwritten.
    pub(crate) fn squeeze(&mut self, out: &mut [u8])
        ensures bytes { (k : ℕ) → k < length out.old → slice_index out.new k ≡ giving RATE self.old k }
        ensures rest { (i : ℕ) → giving RATE self.new i ≡ giving RATE self.old (length out.old + i) }
    {
        // counted by hand: of `chunks_mut` nothing is known at the end, and byte by byte takes a third longer
        let mut done = 0;
        while done < out.len() {
            self.renew();
            self.unload();
            let n = (RATE - self.used).min(out.len() - done);
            let block = &self.block[..];
            put(out, done, &block[self.used..self.used + n]);
            self.used += n;
            done += n;
        }
    }
}
