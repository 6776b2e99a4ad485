//! An entry, as it is handed to a book.
ghost use Rattle.std.specs.Prelude.{◌≡◌, true};
ghost use Rattle.protocol.specs.Book.{well_formed};
ghost use Rattle.protocol.specs.Header.{parameters_of};
ghost use Rattle.protocol.specs.Of.{parameters};

use protocol::header::Header;

/// A record with its header, and what the answers to it chose.
#[derive(Clone, Copy)]
pub struct NewEntry<'a> {
    pub header: Header,
    pub record: &'a [u8],
    /// The hidden party of each repetition.
    pub hidden: &'a [u8],
    /// A flag for each value, 1 if it is kept.
    pub flags: &'a [u16],
    ghost head: { parameters header ≡ parameters_of «record».now },
    ghost well: { well_formed (record { bytes = «record».now; hidden = hidden.now; flags = flags.now }) ≡ true },
}
