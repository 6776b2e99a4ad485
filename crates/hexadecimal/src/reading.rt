//! Bytes, read from hexadecimal text.
ghost use Rattle.std.specs.Prelude.{◌≡◌, ◌<◌, ◌⊎◌, IfSome, Some, None, MatchResult};
ghost use Rattle.hexadecimal.specs.declared.reading.DecodeError.TheVariants.{NoMemory};
ghost use Rattle.hexadecimal.specs.Hex.{value, bytes_of, Refused, error_line};

use std::alloc::{AllocFailed, Global};
use std::error::Error;
use std::fmt;

/// Why a text gives no bytes.
#[derive(Clone, Copy, PartialEq, Eq, Debug)]
pub enum DecodeError {
    OddLength,
    NotADigit { at: usize },
    NoMemory,
}

impl fmt::Display for DecodeError {
    ghost output = { λ e. Some (error_line e) };

    fn fmt<W: fmt::Write>(&self, f: &mut fmt::Formatter<W>) -> fmt::Result {
        match *self {
            DecodeError::OddLength => f.write_str("odd number of digits"),
            DecodeError::NotADigit { at } => write!(f, "no digit at {at}"),
            DecodeError::NoMemory => f.write_str("no memory"),
        }
    }
}

impl Error for DecodeError {}

impl From<AllocFailed<u8>> for DecodeError {
    ghost from_gives = { λ _ e. e ≡ NoMemory };

    fn from(_failed: AllocFailed<u8>) -> DecodeError {
        DecodeError::NoMemory
    }
}

/// What a character stands for, if it is a digit.
fn value(c: u8) -> Option<u8>
    ensures value { result ≡ value c }
    ensures below { IfSome result (λ v. v < 16) }
{
    match c {
        b'0'..=b'9' => Some(c - b'0'),
        b'a'..=b'f' => Some(c - b'a' + 10),
        b'A'..=b'F' => Some(c - b'A' + 10),
        _ => None,
    }
}

/// The same of the character at a place of the text, which the error names.
fn value_at(c: u8, at: usize) -> Result<u8, DecodeError>
    ensures { MatchResult result (λ v. (value c ≡ Some v) × (v < 16)) (λ e. (value c ≡ None) × (e ≡ DecodeError.NotADigit at)) }
{
    value(c).ok_or(DecodeError::NotADigit { at })
}

/// The bytes that a text writes.
pub fn decode(heap: Global, text: &str) -> Result<Vec<u8>, DecodeError>
    ensures { MatchResult result (λ v. bytes_of text.now ≡ Some v.items) (λ e. (e ≡ DecodeError.NoMemory) ⊎ Refused text.now e) }
{
    let mut bytes = Vec::new(heap);
    let (pairs, rest) = text.as_bytes().as_chunks::<2>();
    for (k, &[high, low]) in pairs.iter().enumerate() {
        let high = value_at(high, 2 * k)?;
        let low = value_at(low, 2 * k + 1)?;
        bytes.push(16 * high + low)?;
    }
    match *rest {
        [] => Ok(bytes),
        [last, ..] => {
            value_at(last, text.len() - 1)?;
            Err(DecodeError::OddLength)
        }
    }
}
