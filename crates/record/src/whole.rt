//! A record as long as its header tells.
ghost use Rattle.std.specs.Prelude.{◌≡◌, length};
ghost use Rattle.protocol.specs.Layout.{record_length};
ghost use Rattle.protocol.specs.Of.{parameters};

use crate::view::Record;

/// A record as long as its header tells, so that each of its fields is there in full.
#[derive(Clone, Copy)]
pub struct Whole<'a> {
    pub view: Record<'a>,
    ghost long: { length view.bytes.now ≡ record_length (parameters view.header) },
}
