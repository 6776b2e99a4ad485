//! Flags that keep as many values as the header tells.
ghost use Rattle.std.specs.Prelude.{◌≡◌, length};
ghost use Rattle.protocol.specs.Flags.{ones};
ghost use Rattle.protocol.specs.Of.{parameters};
ghost use Rattle.protocol.specs.Parameters.{sigma};

use protocol::header::Header;

/// A flag for each value: 1 for one that is kept, and 0 or another number for one that is audited.
#[derive(Clone, Copy)]
pub struct Kept<'a> {
    pub header: Header,
    pub flags: &'a [u16],
    ghost long: { length flags.now ≡ (parameters header).m },
    ghost chosen: { ones flags.now ≡ sigma (parameters header) },
}
