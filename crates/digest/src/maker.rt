//! What a digest maker is: it takes the bytes of a text, and then gives the bytes of a stream.
ghost use Rattle.std.specs.Prelude.{◌≡◌, [], length, MatchResult};
ghost use Rattle.protocol.specs.Streams.{Digest, GivesBytes};
ghost use Rattle.digest.specs.Making.{Making, WithinLimit, Holding, Took, Drew, takes, draws};

use protocol::fault::Fault;

/// How many bytes a maker takes, and gives, at most.
pub const LIMIT: u64 = 4_294_967_295;

pub trait DigestMaker {
    // the kind's function, from a text and a position to a byte: one for the kind, not for each maker
    ghost function: { Digest };

    ghost means: { Self → Making };

    /// A new maker is as begun.
    fn new() -> Self
        ensures { Holding function [] (means result) };

    /// Forgets what was taken and drawn.
    fn begin(&mut self)
        ensures { Holding function [] (means self.new) };

    /// Takes more of the text; refused once something was drawn, and past the limit.
    fn take(&mut self, bytes: &[u8]) -> Result<(), Fault>
        ensures answer { result ≡ takes (means self.old) (length bytes.now) }
        ensures effect { MatchResult result (λ _. Took bytes.now (means self.old) (means self.new)) (λ _. means self.new ≡ means self.old) };

    /// Fills the buffer with the next bytes of the stream; refused past the limit.
    fn draw(&mut self, out: &mut [u8]) -> Result<(), Fault>
        ensures answer { result ≡ draws (means self.old) (length out.old) }
        ensures effect { MatchResult result (λ _. Drew out.new (means self.old) (means self.new)) (λ _. (out.new ≡ out.old) × (means self.new ≡ means self.old)) };

    /// How many bytes were taken since it was begun.
    fn bytes_taken(&self) -> u64
        ensures { result ≡ (means self.now).taken };

    /// How many bytes were drawn since it was begun.
    fn bytes_drawn(&self) -> u64
        ensures { result ≡ (means self.now).drawn };

    ghost bytes: { GivesBytes function };

    ghost within: { (s : Self) → WithinLimit (means s) };
}
