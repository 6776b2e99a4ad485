//! The fields of a record, each as a borrowed part with its offset.
ghost use Rattle.std.specs.Prelude.{◌≡◌, length};
ghost use Rattle.protocol.specs.Bytes.{part};
ghost use Rattle.protocol.specs.Layout.{offset, size};
ghost use Rattle.protocol.specs.Of.{parameters};
ghost use Rattle.record.specs.Parts.{Lies};

use crate::view::{Part, Record};
use protocol::field::Field;
use protocol::header::Header;

impl<'a> Record<'a> {
    /// A record over its bytes, with the header that was read from them.
    pub fn over(bytes: &'a [u8], header: Header) -> Record<'a>
        ensures bytes { result.bytes.now ≡ bytes.now }
        ensures header { result.header ≡ header }
    {
        Record { bytes, header }
    }

    /// The bytes of a field, as far as the record has them, with the field's offset.
    pub fn part(&self, field: Field) -> Part<'a>
        ensures { Lies result self.now.bytes.now (offset (parameters self.now.header) field) (size (parameters self.now.header) field) }
    {
        let offset = self.header.offset(field);
        let size = self.header.size(field);
        Part {
            offset,
            bytes: part_of(self.bytes, offset, size),
        }
    }
}

/// So many bytes from an offset on, as far as there are any.
fn part_of<'a>(bytes: &'a [u8], offset: usize, size: usize) -> &'a [u8]
    ensures { result.now ≡ part bytes.now offset size }
{
    let from = offset.min(bytes.len());
    let rest = &bytes[from..];
    let to = size.min(rest.len());
    &rest[0..to]
}
