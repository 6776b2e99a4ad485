//! Digests of texts that lie in parts.
ghost use Rattle.std.specs.Prelude.{◌≡◌, [], ◌∷◌, length, MatchResult, OnOk};
ghost use Rattle.protocol.specs.Streams.{drawn};
ghost use Rattle.protocol.specs.Tests.{first_failing};
ghost use Rattle.digest.specs.Making.{Holding, limit_test};
ghost use Rattle.digest.specs.Parts.{text_of, digests};

use crate::maker::DigestMaker;
use protocol::fault::Fault;

/// Begins the maker, has it take the parts one after the other, and fills the buffer with the front of its stream. It is refused only
/// past the limit, and then the buffer is as it was. The maker is handed back begun.
pub fn digest_parts<D: DigestMaker>(
    maker: &mut D,
    parts: &[&[u8]],
    out: &mut [u8],
) -> Result<(), Fault>
    ensures answer { result ≡ digests (length (text_of parts.now)) (length out.old) }
    ensures out { MatchResult result (λ _. out.new ≡ drawn D.DigestMaker.function (text_of parts.now) (length out.old)) (λ _. out.new ≡ out.old) }
    ensures begun { Holding D.DigestMaker.function [] (D.DigestMaker.means maker.new) }
{
    maker.begin();
    let answer = take_and_draw(maker, parts, out);
    maker.begin();
    answer
}

/// Has a maker that was begun take the parts, and fills the buffer with the front of its stream.
fn take_and_draw<D: DigestMaker>(
    maker: &mut D,
    parts: &[&[u8]],
    out: &mut [u8],
) -> Result<(), Fault>
    requires { Holding D.DigestMaker.function [] (D.DigestMaker.means maker.old) }
    ensures answer { result ≡ digests (length (text_of parts.now)) (length out.old) }
    ensures out { MatchResult result (λ _. out.new ≡ drawn D.DigestMaker.function (text_of parts.now) (length out.old)) (λ _. out.new ≡ out.old) }
{
    take_parts(maker, parts)?;
    maker.draw(out)
}

/// Has a maker that was begun take the parts one after the other.
fn take_parts<D: DigestMaker>(maker: &mut D, parts: &[&[u8]]) -> Result<(), Fault>
    requires { Holding D.DigestMaker.function [] (D.DigestMaker.means maker.old) }
    ensures answer { result ≡ first_failing (limit_test (length (text_of parts.now)) ∷ []) tt }
    ensures holds { OnOk result (Holding D.DigestMaker.function (text_of parts.now) (D.DigestMaker.means maker.new)) }
{
    for part in parts {
        maker.take(part)?;
    }
    Ok(())
}
