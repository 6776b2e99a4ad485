//! Flags as bits of bytes: value k is bit k mod 8 of byte k div 8.
ghost use Rattle.std.specs.Prelude.{◌≡◌, ℕ, ◌+◌, ◌*◌, ◌/◌, ◌%◌, ◌^◌, ◌<◌, ◌≤◌, cond, [], ◌∷◌, length, MatchResult, slice_index};
ghost use Rattle.protocol.specs.Flags.{bits, packed, unpacked, bits_set};
ghost use Rattle.protocol.specs.Header.{length_test};
ghost use Rattle.protocol.specs.Of.{parameters};
ghost use Rattle.protocol.specs.Parameters.{flag_length};
ghost use Rattle.protocol.specs.Tests.{first_failing};
ghost use Rattle.challenge.specs.Counting.{counts, Plain};

use protocol::fault::Fault;
use protocol::header::Header;

/// The flag of a value, and 0 past the last.
fn flag(flags: &[u16], k: usize) -> u8
    requires { Plain flags.now }
    ensures value { result ≡ slice_index flags.now k }
    ensures small { result < 2 }
{
    flags.get(k).map_or(0, |flag| *flag as u8)
}

/// The flags of values 8·b to 8·b + 7 as one byte.
fn flag_byte(flags: &[u16], b: usize) -> u8
    requires plain { Plain flags.now }
    requires place { b ≤ 32768 }
    ensures { result ≡ bits flags.now (8 * b) 8 }
{
    let mut byte = 0;
    // by number, since the last byte may have flags past the last value
    for k in (8 * b..8 * b + 8).rev() {
        byte = 2 * byte + flag(flags, k);
    }
    byte
}

/// Packs flags that are 0 or 1 into bytes; bits past the last flag are 0.
// a `requires` and no type of such flags: callers lend plain slices, and a struct round one would ask more of them
pub fn pack(flags: &[u16], out: &mut [u8])
    requires plain { Plain flags.now }
    requires room { length out.old ≤ 4096 }
    ensures { out.new ≡ packed flags.now (length out.old) }
{
    for (b, byte) in out.iter_mut().enumerate() {
        *byte = flag_byte(flags, b);
    }
}

/// Unpacks a flag for each value from as many bytes as hold them.
pub fn unpack(bytes: &[u8], flags: &mut [u16])
    requires { length flags.old ≤ 8 * length bytes.now }
    ensures { flags.new ≡ unpacked bytes.now (length flags.old) }
{
    for (k, flag) in flags.iter_mut().enumerate() {
        *flag = ((bytes[k / 8] >> (k % 8)) % 2) as u16;
    }
}

/// The ones of each flag byte, summed. It is refused where there are not as many bytes as hold the header's flags.
pub fn count_kept(header: Header, bytes: &[u8]) -> Result<u32, Fault>
    ensures { result ≡ counts (parameters header) bytes.now }
{
    let due = header.flag_length();
    if bytes.len() != due {
        return Err(Fault::Length { due });
    }
    Ok(count_bits(bytes))
}

fn count_bits(bytes: &[u8]) -> u32
    requires { length bytes.now ≤ 4096 }
    ensures { result ≡ bits_set bytes.now }
{
    bytes.iter().map(|b| b.count_ones()).sum()
}
