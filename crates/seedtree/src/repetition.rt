//! Which repetition of a ceremony.
use digest::short::ShortBytes;
use protocol::header::Header;

/// A repetition of a ceremony with this header and salt: the one with this number, counted from 0.
#[derive(Clone, Copy)]
pub struct Repetition<'a> {
    pub header: Header,
    pub salt: &'a ShortBytes,
    pub number: u8,
}
