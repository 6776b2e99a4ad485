//! A ceremony between its steps. It is moved from step to step and cannot be copied, so that it is opened at most once, and not before
//! it has a key.
use digest::short::ShortBytes;
use protocol::fault::Fault;
use protocol::header::Header;

/// A ceremony that was committed, and has no key yet.
#[derive(Drop)]
pub struct Committed {
    pub(crate) header: Header,
    pub(crate) salt: ShortBytes,
    pub(crate) master: [u8; 32],
    pub(crate) d1: ShortBytes,
}

/// A ceremony that has a key, and is not opened yet.
#[derive(Drop)]
pub struct Keyed {
    pub(crate) header: Header,
    pub(crate) salt: ShortBytes,
    pub(crate) master: [u8; 32],
    pub(crate) d1: ShortBytes,
    pub(crate) seed_a: [u8; 16],
    pub(crate) d2: ShortBytes,
}

/// A refused step: the ceremony as it was, and why.
#[derive(Drop)]
pub struct Returned<C> {
    pub ceremony: C,
    pub fault: Fault,
}
