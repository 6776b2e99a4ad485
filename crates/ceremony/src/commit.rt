//! Commit: makes the values of salt and master, shares them, and digests the commitments to the shares.
ghost use Rattle.std.specs.Prelude.{◌≡◌, ◌≤◌, [], ◌∷◌, length};
ghost use Rattle.protocol.specs.Ceremony.{commits, secret_of, memory_test};
ghost use Rattle.protocol.specs.Effects.{wiped};
ghost use Rattle.protocol.specs.Header.{length_test};
ghost use Rattle.protocol.specs.Of.{parameters};
ghost use Rattle.protocol.specs.Parameters.{width, work_words};
ghost use Rattle.protocol.specs.Prover.{honest6};
ghost use Rattle.protocol.specs.Streams.{drawn};
ghost use Rattle.protocol.specs.Tests.{first_failing};
ghost use Rattle.keccak.specs.Sponge.{shake128};
ghost use Rattle.digest.specs.Handing.{HandedBack};
ghost use Rattle.digest.specs.Making.{Holding};
ghost use Rattle.digest.specs.Short.{short_bytes};
ghost use Rattle.shares.specs.Drawing.{value_residues};
ghost use Rattle.sharing.specs.Parts.{scheme};
ghost use Rattle.sharing.specs.Sizes.{scratch_words};
ghost use Rattle.ceremony.specs.Stages.{committed_as};

use crate::stages::Committed;
use digest::maker::DigestMaker;
use digest::short::ShortBytes;
use guard::Guard;
use protocol::fault::Fault;
use protocol::header::Header;
use record::header::check_header;
use shares::drawing::draw_values;
use sharing::held::Holder;
use sharing::memory::{Work, cut_work};
use std::marker::PhantomData;
use texts::holder::digest_text6;

/// Tests attributes and working memory against what the header tells.
pub(crate) fn test_lent(header: Header, attributes: &[u8], words: &[u16]) -> Result<(), Fault>
    ensures { result ≡ first_failing (length_test (length attributes.now) (parameters header).a ∷ memory_test (length words.now) (work_words (parameters header)) ∷ []) tt }
{
    if attributes.len() != header.a as usize {
        return Err(Fault::Length {
            due: header.a as usize,
        });
    }
    let due = header.work_words();
    if words.len() < due {
        return Err(Fault::Memory { due });
    }
    Ok(())
}

/// Makes the values of salt and master, and d1; both makers are left begun.
// lengths by the header stay clauses: attributes and memory are lent, and were tested against it
pub(crate) fn digest_first<D: DigestMaker>(
    short: &mut D,
    long: &mut D,
    header: Header,
    salt: &ShortBytes,
    master: &[u8; 32],
    attributes: &[u8],
    values: &mut [u16],
    scratch: &mut [u16],
) -> ShortBytes
    requires attributes { length attributes.now ≡ (parameters header).a }
    requires values { length values.old ≡ (parameters header).m }
    requires scratch { scratch_words (parameters header) ≤ length scratch.old }
    ensures digest { short_bytes result ≡ drawn D.DigestMaker.function (honest6 (scheme D.DigestMaker.function (parameters header)) (secret_of D.DigestMaker.function (parameters header) (short_bytes salt.now) master.now attributes.now [] [] [])) (width (parameters header)) }
    ensures values { values.new ≡ value_residues D.DigestMaker.function (parameters header) (short_bytes salt.now) master.now }
    ensures short { Holding D.DigestMaker.function [] (D.DigestMaker.means short.new) }
    ensures long { Holding D.DigestMaker.function [] (D.DigestMaker.means long.new) }
{
    draw_values(short, header, salt, master, values);
    let holder = Holder {
        header,
        salt,
        master,
        values,
        of: PhantomData,
    };
    let d1 = digest_text6(short, long, holder, attributes, scratch);
    short.begin();
    long.begin();
    d1
}

/// The digest d1 of salt, master and attributes; both makers are left begun.
fn digest_commitments<D: DigestMaker>(
    short: &mut D,
    long: &mut D,
    header: Header,
    salt: &ShortBytes,
    master: &[u8; 32],
    attributes: &[u8],
    words: &mut [u16],
) -> ShortBytes
    requires attributes { length attributes.now ≡ (parameters header).a }
    requires words { work_words (parameters header) ≤ length words.old }
    ensures digest { short_bytes result ≡ drawn D.DigestMaker.function (honest6 (scheme D.DigestMaker.function (parameters header)) (secret_of D.DigestMaker.function (parameters header) (short_bytes salt.now) master.now attributes.now [] [] [])) (width (parameters header)) }
    ensures short { Holding D.DigestMaker.function [] (D.DigestMaker.means short.new) }
    ensures long { Holding D.DigestMaker.function [] (D.DigestMaker.means long.new) }
{
    let Work {
        values,
        flags: _,
        scratch,
    } = cut_work(header, words);
    digest_first(
        short, long, header, salt, master, attributes, values, scratch,
    )
}

/// On memory that the caller wipes.
fn commit_in<D: DigestMaker>(
    header: &[u8; 15],
    salt: &[u8; 32],
    master: &[u8; 32],
    attributes: &[u8],
    short: &mut D,
    long: &mut D,
    words: &mut [u16],
) -> Result<Committed, Fault>
    ensures says { committed_as result ≡ commits D.DigestMaker.function shake128 header.now salt.now master.now attributes.now (length words.old) }
    ensures short { HandedBack D.DigestMaker.function result (D.DigestMaker.means short.old) (D.DigestMaker.means short.new) }
    ensures long { HandedBack D.DigestMaker.function result (D.DigestMaker.means long.old) (D.DigestMaker.means long.new) }
{
    let header = check_header(header)?;
    test_lent(header, attributes, words)?;
    let salt = ShortBytes::from(*salt);
    let d1 = digest_commitments(short, long, header, &salt, master, attributes, words);
    Ok(Committed {
        header,
        salt,
        master: *master,
        d1,
    })
}

/// Commits to the values that salt and master give. It is refused by mark, version, limits, the length of the attributes, the working
/// memory, in this order. All of the working memory is zero afterwards; a maker that was used is handed back begun.
pub fn commit<D: DigestMaker>(
    header: &[u8; 15],
    salt: &[u8; 32],
    master: &[u8; 32],
    attributes: &[u8],
    short: &mut D,
    long: &mut D,
    work: &mut [u16],
) -> Result<Committed, Fault>
    ensures says { committed_as result ≡ commits D.DigestMaker.function shake128 header.now salt.now master.now attributes.now (length work.old) }
    ensures wiped { work.new ≡ wiped work.old }
    ensures short { HandedBack D.DigestMaker.function result (D.DigestMaker.means short.old) (D.DigestMaker.means short.new) }
    ensures long { HandedBack D.DigestMaker.function result (D.DigestMaker.means long.old) (D.DigestMaker.means long.new) }
{
    let guard = Guard { words: work };
    commit_in(header, salt, master, attributes, short, long, guard.words)
}
