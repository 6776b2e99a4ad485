//! The kept values, by a challenger's first answer, and the hidden parties, by its second.
ghost use Rattle.std.specs.Prelude.{◌≡◌, ℕ, ◌+◌, ◌%◌, ◌<◌, ◌≤◌, [], ◌∷◌, length, replicate, MatchResult, OnOk, slice_index};
ghost use Rattle.protocol.specs.Flags.{ones};
ghost use Rattle.challenge.specs.Counting.{Plain};
ghost use Rattle.protocol.specs.Header.{length_test};
ghost use Rattle.protocol.specs.Of.{parameters};
ghost use Rattle.protocol.specs.Parameters.{sigma, parties};
ghost use Rattle.protocol.specs.Selection.{keep as kept_with, selected, hidden_parties};
ghost use Rattle.protocol.specs.Tests.{first_failing};
ghost use Rattle.digest.specs.Short.{short_bytes};
ghost use Rattle.challenge.specs.Answering.{SameAnswers};

use crate::challenger::Challenger;
use digest::short::ShortBytes;
use protocol::fault::Fault;
use protocol::header::Header;

/// Keeps value t, where t is the draw mod (j + 1), or value j if t is kept already.
fn keep(flags: &mut [u16], j: usize, draw: u64)
    requires { j < length flags.old }
    ensures { flags.new ≡ kept_with flags.old j (draw % (j + 1)) }
{
    let t = (draw % (j as u64 + 1)) as usize;
    if flags[t] == 1 {
        flags[j] = 1;
    } else {
        flags[t] = 1;
    }
}

/// Asks the first question, and flags as many of the values as are to be kept.
fn flag_kept<C: Challenger>(
    challenger: &mut C,
    salt: &ShortBytes,
    d1: &ShortBytes,
    count: usize,
    flags: &mut [u16],
)
    requires some { count ≤ length flags.old }
    requires most { length flags.old ≤ 32768 }
    ensures flags { flags.new ≡ selected ((C.Challenger.answers challenger.old).first (short_bytes salt.now) (short_bytes d1.now)) (length flags.old) count }
    ensures same { SameAnswers (C.Challenger.answers challenger.old) (C.Challenger.answers challenger.new) }
{
    flags.fill(0);
    challenger.first(salt, d1);
    // by number: the choice is drawn modulo j + 1
    for j in flags.len() - count..flags.len() {
        let mut bytes = [0; 8];
        challenger.next(&mut bytes).unwrap();
        keep(flags, j, u64::from_le_bytes(bytes));
    }
}

/// Asks the first question for this salt and d1, and flags the values that its answer keeps: 1 kept, 0 audited. It is refused where
/// there are not as many flags as values, and then nothing is asked.
pub fn select_kept<C: Challenger>(
    challenger: &mut C,
    salt: &ShortBytes,
    d1: &ShortBytes,
    header: Header,
    flags: &mut [u16],
) -> Result<(), Fault>
    ensures answer { result ≡ first_failing (length_test (length flags.old) (parameters header).m ∷ []) tt }
    ensures flags { MatchResult result (λ _. flags.new ≡ selected ((C.Challenger.answers challenger.old).first (short_bytes salt.now) (short_bytes d1.now)) (parameters header).m (sigma (parameters header))) (λ _. flags.new ≡ flags.old) }
    ensures asked { MatchResult result (λ _. SameAnswers (C.Challenger.answers challenger.old) (C.Challenger.answers challenger.new)) (λ _. C.Challenger.answers challenger.new ≡ C.Challenger.answers challenger.old) }
    ensures chosen { OnOk result (Plain flags.new × (ones flags.new ≡ sigma (parameters header))) }
{
    let due = header.m as usize;
    if flags.len() != due {
        return Err(Fault::Length { due });
    }
    flag_kept(challenger, salt, d1, header.kept(), flags);
    Ok(())
}

/// Reduces each byte mod the number of parties.
fn reduce(bytes: &mut [u8], parties: usize)
    requires { 0 < parties }
    ensures { (k : ℕ) → k < length bytes.old → slice_index bytes.new k ≡ slice_index bytes.old k % parties }
{
    for b in bytes.iter_mut() {
        *b = (*b as usize % parties) as u8;
    }
}

/// Asks the second question for this salt, d1 and d2, and writes the hidden party of each repetition. It is refused where the buffer
/// has not one byte for each, and then nothing is asked.
pub fn choose_hidden<C: Challenger>(
    challenger: &mut C,
    salt: &ShortBytes,
    d1: &ShortBytes,
    d2: &ShortBytes,
    header: Header,
    hidden: &mut [u8],
) -> Result<(), Fault>
    ensures answer { result ≡ first_failing (length_test (length hidden.old) (parameters header).tau ∷ []) tt }
    ensures hidden { MatchResult result (λ _. hidden.new ≡ hidden_parties ((C.Challenger.answers challenger.old).second (short_bytes salt.now) (short_bytes d1.now) (short_bytes d2.now)) (parties (parameters header)) (parameters header).tau) (λ _. hidden.new ≡ hidden.old) }
    ensures asked { MatchResult result (λ _. SameAnswers (C.Challenger.answers challenger.old) (C.Challenger.answers challenger.new)) (λ _. C.Challenger.answers challenger.new ≡ C.Challenger.answers challenger.old) }
{
    let due = header.tau as usize;
    if hidden.len() != due {
        return Err(Fault::Length { due });
    }
    challenger.second(salt, d1, d2);
    challenger.next(hidden).unwrap();
    reduce(hidden, header.parties());
    Ok(())
}
