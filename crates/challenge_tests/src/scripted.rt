//! What the scripted challenger answers.
ghost use Rattle.std.specs.Prelude.{◌≡◌, ◌+◌, ◌≤◌, None, length};
ghost use Rattle.protocol.specs.Streams.{first_bytes};
ghost use Rattle.challenge_tests.specs.Script.{script as script_of, answers_of};

use crate::script::Scripted;
use challenge::challenger::Challenger;
use digest::maker::LIMIT;
use digest::short::ShortBytes;
use protocol::fault::Fault;

impl Scripted {
    /// One that was not asked yet.
    pub fn new(one: u8, two: u8) -> Scripted
        ensures one { result.one ≡ one }
        ensures two { result.two ≡ two }
        ensures filled { result.filled ≡ None }
    {
        Scripted {
            one,
            two,
            filled: None,
        }
    }
}

/// The byte at a place of the script.
fn script(one: u8, two: u8, i: u64) -> u8
    ensures { result ≡ script_of one two i }
{
    match i {
        0 => one,
        8 => two,
        _ => 0,
    }
}

/// Fills the buffer with the script from a place on.
fn fill(one: u8, two: u8, from: u64, out: &mut [u8])
    requires { from + length out.old ≤ 4294967295 }
    ensures { out.new ≡ first_bytes (λ i. script_of one two (from + i)) (length out.old) }
{
    for (k, byte) in out.iter_mut().enumerate() {
        *byte = script(one, two, from + k as u64);
    }
}

impl Challenger for Scripted {
    ghost answers = { answers_of };

    fn first(&mut self, _salt: &ShortBytes, _d1: &ShortBytes) {
        self.filled = Some(0);
    }

    fn second(&mut self, _salt: &ShortBytes, _d1: &ShortBytes, _d2: &ShortBytes) {
        self.filled = Some(0);
    }

    fn next(&mut self, out: &mut [u8]) -> Result<(), Fault> {
        let filled = self.filled.ok_or(Fault::Turn)?;
        let more = out.len() as u64;
        if more > LIMIT - filled {
            return Err(Fault::PastLimit);
        }
        fill(self.one, self.two, filled, out);
        self.filled = Some(filled + more);
        Ok(())
    }
}
