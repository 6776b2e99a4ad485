//! What a challenger is: it answers two questions by streams of bytes.
ghost use Rattle.std.specs.Prelude.{◌≡◌, length, MatchResult};
ghost use Rattle.digest.specs.Short.{short_bytes};
ghost use Rattle.challenge.specs.Answering.{Answering, Started, Filled, nexts};

use digest::short::ShortBytes;
use protocol::fault::Fault;

pub trait Challenger {
    ghost answers: { Self → Answering };

    /// Asks which values are kept: starts the stream G1 of salt and d1 at its front.
    fn first(&mut self, salt: &ShortBytes, d1: &ShortBytes)
        ensures { Started ((answers self.old).first (short_bytes salt.now) (short_bytes d1.now)) (answers self.old) (answers self.new) };

    /// Asks which parties are hidden: starts the stream G2 of salt, d1 and d2 at its front.
    fn second(&mut self, salt: &ShortBytes, d1: &ShortBytes, d2: &ShortBytes)
        ensures { Started ((answers self.old).second (short_bytes salt.now) (short_bytes d1.now) (short_bytes d2.now)) (answers self.old) (answers self.new) };

    /// Fills the buffer with the next bytes of the stream last started; refused before any question, and past the limit.
    fn next(&mut self, out: &mut [u8]) -> Result<(), Fault>
        ensures answer { result ≡ nexts (answers self.old) (length out.old) }
        ensures effect { MatchResult result (λ _. Filled out.new (answers self.old) (answers self.new)) (λ _. (out.new ≡ out.old) × (answers self.new ≡ answers self.old)) };
}
