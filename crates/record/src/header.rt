//! The header's tests, in their order.
ghost use Rattle.std.specs.Prelude.{◌≡◌, ◌+◌, ◌<◌, ◌≤◌, ◌||◌, [], ◌∷◌, length, take, not, is_ok, IfOk, OnOk, MatchResult, nat_lt, slice_index};
ghost use Rattle.protocol.specs.Bytes.{word};
ghost use Rattle.protocol.specs.Tests.{first_failing};
ghost use Rattle.protocol.specs.Layout.{record_length};
ghost use Rattle.protocol.specs.Header.{parameters_of, header_bytes, mark_test, version_test, checks_header, reads_header, reads_record};
ghost use Rattle.protocol.specs.Of.{parameters, read_as};
ghost use Rattle.protocol.specs.Sets.{number as number_of};

use protocol::fault::Fault;
use protocol::header::Header;
use protocol::set::Set;

/// How many bytes a header has.
pub const HEADER_BYTES: usize = 15;

/// The two-byte number at an offset.
// by its bytes: an offset is what it is given, and the definition `word` has it so
fn word(bytes: &[u8], at: usize) -> u16
    requires { at + 1 < length bytes.now }
    ensures { result ≡ word bytes.now at }
{
    u16::from_le_bytes([bytes[at], bytes[at + 1]])
}

/// Tests mark and version.
fn test_kind(bytes: &[u8]) -> Result<(), Fault>
    requires { 15 ≤ length bytes.now }
    ensures says { result ≡ first_failing (mark_test bytes.now ∷ version_test (parameters_of bytes.now) ∷ []) tt }
    ensures known { OnOk result ((slice_index bytes.now 0 ≡ 75) × (slice_index bytes.now 1 ≡ 80) × (slice_index bytes.now 2 ≡ 80) × (word bytes.now 3 ≡ 1)) }
{
    if !bytes.starts_with(b"KPP") {
        return Err(Fault::Mark);
    }
    if word(bytes, 3) != 1 {
        return Err(Fault::Version);
    }
    Ok(())
}

/// Tests that the field at an offset lies from low to high.
fn test_limit(offset: usize, value: usize, low: usize, high: usize) -> Result<(), Fault>
    ensures says { result ≡ first_failing (record { fails = nat_lt value low || nat_lt high value; fault = Fault.Limit offset } ∷ []) tt }
    ensures within { OnOk result ((low ≤ value) × (value ≤ high)) }
{
    if value < low || high < value {
        return Err(Fault::Limit { offset });
    }
    Ok(())
}

/// The set of a number, which lies from 1 to 3.
fn test_set(number: u8) -> Result<Set, Fault>
    ensures says { MatchResult result (λ s. number_of s ≡ number) (λ f. f ≡ Fault.Limit 5) }
    ensures within { is_ok result ≡ not (nat_lt number 1 || nat_lt 3 number) }
{
    Set::try_from(number).map_err(|_| Fault::Limit { offset: 5 })
}

/// The header at the front of fifteen bytes or more, or the first test that it fails: mark, version, and the lowest field past its
/// limit.
fn test_header(bytes: &[u8]) -> Result<Header, Fault>
    requires { 15 ≤ length bytes.now }
    ensures says { read_as result ≡ checks_header bytes.now }
    ensures back { IfOk result (λ x. header_bytes (parameters x) ≡ take 15 bytes.now) }
{
    test_kind(bytes)?;
    let version = word(bytes, 3);
    let (c, h, tau) = (bytes[8], bytes[11], bytes[12]);
    let (n, m, a) = (word(bytes, 6), word(bytes, 9), word(bytes, 13));
    let set = test_set(bytes[5])?;
    test_limit(6, n as usize, 1, 1344)?;
    test_limit(8, c as usize, 1, 8)?;
    test_limit(9, m as usize, 2 * (n as usize * c as usize) + 1, 32768)?;
    test_limit(11, h as usize, 1, 8)?;
    test_limit(12, tau as usize, 1, 64)?;
    test_limit(13, a as usize, 0, 1024)?;
    Ok(Header {
        version,
        set,
        n,
        c,
        m,
        h,
        tau,
        a,
    })
}

/// A bare header: mark, version, limits. Its encoding is again these bytes.
// a function and no TryFrom, as with the encoder
pub fn check_header(bytes: &[u8; 15]) -> Result<Header, Fault>
    ensures says { read_as result ≡ checks_header bytes.now }
    ensures back { IfOk result (λ x. header_bytes (parameters x) ≡ take 15 bytes.now) }
{
    test_header(bytes)
}

/// The header at the front of any bytes: fewer than fifteen, mark, version, limits. Its encoding is again the first fifteen.
pub fn read_header(bytes: &[u8]) -> Result<Header, Fault>
    ensures says { read_as result ≡ reads_header bytes.now }
    ensures back { IfOk result (λ x. header_bytes (parameters x) ≡ take 15 bytes.now) }
{
    if bytes.len() < HEADER_BYTES {
        return Err(Fault::Short);
    }
    test_header(bytes)
}

/// The header of a record: fewer than fifteen bytes, mark, version, limits, and then the record's length.
pub fn read_record(bytes: &[u8]) -> Result<Header, Fault>
    ensures says { read_as result ≡ reads_record bytes.now }
    ensures long { IfOk result (λ x. length bytes.now ≡ record_length (parameters x)) }
{
    let header = read_header(bytes)?;
    let due = header.record_length();
    if bytes.len() != due {
        return Err(Fault::Length { due });
    }
    Ok(header)
}
