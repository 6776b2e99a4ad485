//! How a sponge takes a text: whole blocks go straight into the state, and what is left of the text waits in a block of its own.
ghost use Rattle.std.specs.Prelude.{◌≡◌, ℕ, ◌+◌, ◌<◌, ◌≤◌, List, [], ◌++◌, length};
ghost use Rattle.std.proofs.Math.Seq.{paste};
ghost use Rattle.keccak.specs.Sponge.{sponge};
ghost use Rattle.keccak.specs.Meaning.{absorbing};

use crate::block::absorb;
use crate::state::Sponge;

// Copies the bytes into a buffer, from a place on. One call of the library, with a contract in the words of this crate's proofs.
pub(crate) fn put(out: &mut [u8], at: usize, bytes: &[u8])
    requires { at + length bytes.now ≤ length out.old }
    ensures { out.new ≡ paste out.old at bytes.now (length bytes.now) }
{
    out[at..at + bytes.len()].copy_from_slice(bytes);
}

// Absorbs the whole blocks that the bytes begin with; answers the rest.
fn absorb_blocks<'a, const RATE: usize>(lanes: &mut [u64; 25], bytes: &'a [u8]) -> &'a [u8]
    requires some { 0 < RATE }
    requires fits { RATE ≤ 200 }
    ensures short { length result.now < RATE }
    ensures same { (x : List ℕ) → sponge RATE lanes.new (result.now ++ x) ≡ sponge RATE lanes.old (bytes.now ++ x) }
{
    let (blocks, rest) = bytes.as_chunks::<RATE>();
    for block in blocks {
        absorb(lanes, block);
    }
    rest
}

impl<const RATE: usize> Sponge<RATE> {
    // Takes the bytes, behind those that wait.
    pub(crate) fn take_in(&mut self, bytes: &[u8])
        ensures { (x : List ℕ) → absorbing RATE self.new x ≡ absorbing RATE self.old (bytes.now ++ x) }
    {
        let room = RATE - self.filled;
        if bytes.len() < room {
            put(&mut self.block, self.filled, bytes);
            self.filled += bytes.len();
            return;
        }
        let (head, more) = bytes.split_at(room);
        put(&mut self.block, self.filled, head);
        absorb(&mut self.lanes, &self.block);
        let rest = absorb_blocks::<RATE>(&mut self.lanes, more);
        put(&mut self.block, 0, rest);
        self.filled = rest.len();
    }

    // Pads what waits, and absorbs it: from now on the stream is given.
    pub(crate) fn close(&mut self)
        ensures lanes { self.new.lanes ≡ absorbing RATE self.old [] }
        ensures unused { self.new.used ≡ 0 }
    {
        let block = &mut self.block[..];
        block[self.filled] = 0x1f;
        block[self.filled + 1..].fill(0);
        block[RATE - 1] ^= 0x80;
        absorb(&mut self.lanes, &self.block);
        self.used = 0;
    }
}
