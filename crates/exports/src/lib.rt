//! The digests, and a row of a product, as the crate `exports_c` exports them to C.
#![tactic(auto)]

pub mod product;

ghost use Rattle.std.specs.Prelude.{◌≡◌, length, MatchResult};
ghost use Rattle.protocol.specs.Streams.{drawn};
ghost use Rattle.digest.specs.Parts.{digests};

use digest::maker::DigestMaker;
use digest::parts::digest_parts;
use protocol::fault::Fault;

/// Fills the buffer with the front of the stream of the text by a kind of maker; refused, and the buffer as it was, where one of them is
/// past the limit.
pub fn digest_into<D: DigestMaker + Drop>(text: &[u8], out: &mut [u8]) -> Result<(), Fault>
    ensures answer { result ≡ digests (length text.now) (length out.old) }
    ensures out { MatchResult result (λ _. out.new ≡ drawn D.DigestMaker.function text.now (length out.old)) (λ _. out.new ≡ out.old) }
{
    let mut maker = D::new();
    digest_parts(&mut maker, &[text], out)
}
