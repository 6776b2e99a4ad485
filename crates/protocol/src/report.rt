//! What a refusal says, a number, a place and a layer, and how refusals and fields are printed.
ghost use Rattle.std.specs.Prelude.{◌≡◌, Some};
ghost use Rattle.protocol.specs.Faults.{number, place, layer, layer_name, refusal_line};
ghost use Rattle.protocol.specs.Layout.{base_name, repetition_of, field_name};

use crate::fault::{Fault, Layer};
use crate::field::Field;
use std::fmt;

impl Fault {
    pub fn number(self) -> u8
        ensures { result ≡ number self }
    {
        match self {
            Fault::Short => 1,
            Fault::Mark => 2,
            Fault::Version => 3,
            Fault::Limit { .. } => 4,
            Fault::Length { .. } => 5,
            Fault::Residue { .. } => 6,
            Fault::Audited { .. } => 7,
            Fault::FirstDigest => 8,
            Fault::SecondDigest => 9,
            Fault::Memory { .. } => 10,
            Fault::Rebuilt => 11,
            Fault::Output { .. } => 12,
            Fault::Full { .. } => 13,
            Fault::Missing { .. } => 14,
            Fault::Turn => 15,
            Fault::PastLimit => 16,
            Fault::Unequal => 17,
            Fault::Repetition { .. } => 18,
        }
    }

    /// Where it arises, or what is due, as the table of refusals says; 0 where a refusal has no place, as its line prints it.
    pub fn place(self) -> usize
        ensures { result ≡ place self }
    {
        match self {
            Fault::Version => 3,
            Fault::Limit { offset } => offset,
            Fault::Length { due } => due,
            Fault::Residue { offset } => offset,
            Fault::Audited { offset } => offset,
            Fault::Memory { due } => due,
            Fault::Output { due } => due,
            Fault::Full { bytes } => bytes,
            Fault::Missing { number } => number,
            Fault::Repetition { number } => number,
            Fault::Short
            | Fault::Mark
            | Fault::FirstDigest
            | Fault::SecondDigest
            | Fault::Rebuilt
            | Fault::Turn
            | Fault::PastLimit
            | Fault::Unequal => 0,
        }
    }

    pub fn layer(self) -> Layer
        ensures { result ≡ layer self }
    {
        match self {
            Fault::Short
            | Fault::Mark
            | Fault::Version
            | Fault::Limit { .. }
            | Fault::Length { .. } => Layer::Header,
            Fault::Residue { .. } | Fault::Audited { .. } => Layer::Body,
            Fault::FirstDigest | Fault::SecondDigest => Layer::Digest,
            Fault::Memory { .. } | Fault::Output { .. } => Layer::Memory,
            Fault::Rebuilt => Layer::Ceremony,
            Fault::Turn | Fault::PastLimit => Layer::Maker,
            Fault::Full { .. }
            | Fault::Missing { .. }
            | Fault::Unequal
            | Fault::Repetition { .. } => Layer::Book,
        }
    }
}

impl Layer {
    pub fn name(self) -> &'static str
        ensures { result.now ≡ layer_name self }
    {
        match self {
            Layer::Header => "header",
            Layer::Memory => "memory",
            Layer::Book => "book",
            Layer::Body => "body",
            Layer::Digest => "digest",
            Layer::Ceremony => "ceremony",
            Layer::Maker => "maker",
        }
    }
}

/// `refused NUMBER PLACE LAYER`
impl fmt::Display for Fault {
    ghost output = { λ f. Some (refusal_line f) };

    fn fmt<W: fmt::Write>(&self, f: &mut fmt::Formatter<W>) -> fmt::Result {
        let number = self.number();
        let place = self.place();
        let layer = self.layer().name();
        write!(f, "refused {number} {place} {layer}")
    }
}

impl Field {
    /// The field's name, without its repetition.
    fn base_name(self) -> &'static str
        ensures { result.now ≡ base_name self }
    {
        match self {
            Field::Mark => "mark",
            Field::Version => "version",
            Field::Set => "set",
            Field::Rows => "n",
            Field::Columns => "c",
            Field::Values => "M",
            Field::Depth => "h",
            Field::Repetitions => "tau",
            Field::AttributeBytes => "a",
            Field::SeedA => "seedA",
            Field::Salt => "salt",
            Field::FirstDigest => "d1",
            Field::SecondDigest => "d2",
            Field::Attributes => "attributes",
            Field::Key => "B",
            Field::Audited => "audited",
            Field::Commitment(_) => "commitment",
            Field::Seeds(_) => "seeds",
            Field::Offsets(_) => "offsets",
        }
    }

    /// The repetition in which the field stands, if it stands in one.
    fn repetition(self) -> Option<u8>
        ensures { result ≡ repetition_of self }
    {
        match self {
            Field::Commitment(e) | Field::Seeds(e) | Field::Offsets(e) => Some(e),
            Field::Mark
            | Field::Version
            | Field::Set
            | Field::Rows
            | Field::Columns
            | Field::Values
            | Field::Depth
            | Field::Repetitions
            | Field::AttributeBytes
            | Field::SeedA
            | Field::Salt
            | Field::FirstDigest
            | Field::SecondDigest
            | Field::Attributes
            | Field::Key
            | Field::Audited => None,
        }
    }
}

/// `NAME`, or `NAME[REPETITION]`
impl fmt::Display for Field {
    ghost output = { λ f. Some (field_name f) };

    fn fmt<W: fmt::Write>(&self, f: &mut fmt::Formatter<W>) -> fmt::Result {
        let name = self.base_name();
        match self.repetition() {
            None => f.write_str(name),
            Some(e) => write!(f, "{name}[{e}]"),
        }
    }
}
