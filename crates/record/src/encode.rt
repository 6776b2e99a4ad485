//! The encoder of a header.
ghost use Rattle.std.specs.Prelude.{◌≡◌, Ok};
ghost use Rattle.protocol.specs.Header.{header_bytes, reads_header};
ghost use Rattle.protocol.specs.Of.{parameters};

use protocol::header::Header;

/// The fifteen bytes of a header, from which it is read again.
// a function and no From: neither `Header` nor the array is of this crate
pub fn encode_header(x: Header) -> [u8; 15]
    ensures bytes { result ≡ header_bytes (parameters x) }
    ensures again { reads_header result ≡ Ok (parameters x) }
{
    let [version0, version1] = x.version.to_le_bytes();
    let [n0, n1] = x.n.to_le_bytes();
    let [m0, m1] = x.m.to_le_bytes();
    let [a0, a1] = x.a.to_le_bytes();
    [
        b'K',
        b'P',
        b'P',
        version0,
        version1,
        x.set.number(),
        n0,
        n1,
        x.c,
        m0,
        m1,
        x.h,
        x.tau,
        a0,
        a1,
    ]
}
