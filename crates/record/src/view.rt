//! A record over the bytes that were handed in.
use protocol::header::Header;

/// A record by its bytes and the header that they begin with.
#[derive(Clone, Copy)]
pub struct Record<'a> {
    pub bytes: &'a [u8],
    pub header: Header,
}

/// A field of a record: its bytes, and where in the record they begin.
#[derive(Clone, Copy)]
pub struct Part<'a> {
    pub offset: usize,
    pub bytes: &'a [u8],
}
