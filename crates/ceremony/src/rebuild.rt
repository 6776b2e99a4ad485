//! Digests made anew for key and open, and held to those that the ceremony keeps.
ghost use Rattle.std.specs.Prelude.{◌≡◌, ℕ, ◌<◌, ◌≤◌, [], ◌∷◌, length, slice_index};
ghost use Rattle.protocol.specs.Ceremony.{secret_of, rebuilt_test};
ghost use Rattle.protocol.specs.Of.{parameters};
ghost use Rattle.protocol.specs.Parameters.{width};
ghost use Rattle.protocol.specs.Prover.{honest6, honest7};
ghost use Rattle.protocol.specs.Streams.{drawn};
ghost use Rattle.protocol.specs.Tests.{first_failing};
ghost use Rattle.digest.specs.Making.{Holding};
ghost use Rattle.digest.specs.Short.{short_bytes};
ghost use Rattle.shares.specs.Drawing.{value_residues};
ghost use Rattle.sharing.specs.Parts.{scheme};
ghost use Rattle.sharing.specs.Sizes.{scratch_words};

use crate::commit::digest_first;
use digest::maker::DigestMaker;
use digest::short::ShortBytes;
use protocol::fault::Fault;
use protocol::header::Header;
use sharing::held::Asked;
use texts::holder::digest_text7;

/// A digest that was made anew must be the one that is kept.
fn test_rebuilt(anew: &ShortBytes, kept: &ShortBytes) -> Result<(), Fault>
    ensures { result ≡ first_failing (rebuilt_test (short_bytes anew.now) (short_bytes kept.now) ∷ []) tt }
{
    if anew.as_slice() == kept.as_slice() {
        Ok(())
    } else {
        Err(Fault::Rebuilt)
    }
}

/// Makes the values and d1 anew, and tests d1; both makers are left begun.
pub(crate) fn rebuild_first<D: DigestMaker>(
    short: &mut D,
    long: &mut D,
    header: Header,
    salt: &ShortBytes,
    master: &[u8; 32],
    attributes: &[u8],
    d1: &ShortBytes,
    values: &mut [u16],
    scratch: &mut [u16],
) -> Result<(), Fault>
    requires attributes { length attributes.now ≡ (parameters header).a }
    requires values { length values.old ≡ (parameters header).m }
    requires scratch { scratch_words (parameters header) ≤ length scratch.old }
    ensures says { result ≡ first_failing (rebuilt_test (drawn D.DigestMaker.function (honest6 (scheme D.DigestMaker.function (parameters header)) (secret_of D.DigestMaker.function (parameters header) (short_bytes salt.now) master.now attributes.now [] [] [])) (width (parameters header))) (short_bytes d1.now) ∷ []) tt }
    ensures values { values.new ≡ value_residues D.DigestMaker.function (parameters header) (short_bytes salt.now) master.now }
    ensures short { Holding D.DigestMaker.function [] (D.DigestMaker.means short.new) }
    ensures long { Holding D.DigestMaker.function [] (D.DigestMaker.means long.new) }
{
    let anew = digest_first(
        short, long, header, salt, master, attributes, values, scratch,
    );
    test_rebuilt(&anew, d1)
}

/// d2 of a holder who was asked; both makers are left begun.
pub(crate) fn make_second<D: DigestMaker>(
    short: &mut D,
    long: &mut D,
    asked: Asked<'_, D>,
    d1: &ShortBytes,
    scratch: &mut [u16],
) -> ShortBytes
    requires plain { (k : ℕ) → slice_index asked.flags.now k < 2 }
    requires scratch { scratch_words (parameters asked.holder.header) ≤ length scratch.old }
    ensures digest { let h = asked.entry.holder in let p = parameters h.header in short_bytes result ≡ drawn D.DigestMaker.function (honest7 (scheme D.DigestMaker.function p) (secret_of D.DigestMaker.function p (short_bytes h.salt.now) h.master.now [] (short_bytes d1.now) asked.entry.seed_a.now asked.entry.flags.now)) (width p) }
    ensures short { Holding D.DigestMaker.function [] (D.DigestMaker.means short.new) }
    ensures long { Holding D.DigestMaker.function [] (D.DigestMaker.means long.new) }
{
    let d2 = digest_text7(short, long, asked, d1, scratch);
    short.begin();
    long.begin();
    d2
}
