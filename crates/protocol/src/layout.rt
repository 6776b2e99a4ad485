//! The numbers that follow from a header, and where the fields of its record lie.
ghost use Rattle.std.specs.Prelude.{◌≡◌, ◌*◌};
ghost use Rattle.std.specs.List.{slice_get};
ghost use Rattle.protocol.specs.Parameters.{sigma, parties, work_words, flag_length, width};
ghost use Rattle.protocol.specs.Layout.{size, offset, block_length, blocks_at, record_length, entry_length, fields, block_fields, field_count, number_in, FieldsTile};
ghost use Rattle.protocol.specs.Of.{parameters};

use crate::field::Field;
use crate::header::Header;

/// The fields that stand once in a record, in their order.
const LEADING: [Field; 16] = [
    Field::Mark,
    Field::Version,
    Field::Set,
    Field::Rows,
    Field::Columns,
    Field::Values,
    Field::Depth,
    Field::Repetitions,
    Field::AttributeBytes,
    Field::SeedA,
    Field::Salt,
    Field::FirstDigest,
    Field::SecondDigest,
    Field::Attributes,
    Field::Key,
    Field::Audited,
];

/// Bytes of a salt, a commitment and a digest.
const WIDTH: usize = 32;

impl Header {
    /// Bytes of a salt, a commitment and a digest.
    pub fn width(self) -> usize
        ensures { result ≡ width (parameters self) }
    {
        WIDTH
    }

    /// How many entries S, E and B have each.
    pub fn entries(self) -> usize
        ensures { result ≡ self.n * self.c }
    {
        self.n as usize * self.c as usize
    }

    /// How many values are kept.
    pub fn kept(self) -> usize
        ensures { result ≡ sigma (parameters self) }
    {
        self.entries() * 2
    }

    /// How many parties share each value.
    pub fn parties(self) -> usize
        ensures { result ≡ parties (parameters self) }
    {
        1 << self.h
    }

    /// The sixteen-bit numbers that a call works in.
    pub fn work_words(self) -> usize
        ensures { result ≡ work_words (parameters self) }
    {
        6 * self.m as usize + 4 * self.entries() + 64 * self.parties()
    }

    /// The bytes that hold a flag for each value.
    pub fn flag_length(self) -> usize
        ensures { result ≡ flag_length (parameters self) }
    {
        (self.m as usize + 7) / 8
    }

    fn block_length(self) -> usize
        ensures { result ≡ block_length (parameters self) }
    {
        self.width() + 32 * self.h as usize + 2 * self.m as usize
    }

    fn blocks_at(self) -> usize
        ensures { result ≡ blocks_at (parameters self) }
    {
        31 + 3 * self.width()
            + self.a as usize
            + 2 * self.entries()
            + (self.m as usize - self.kept())
    }

    fn block_at(self, e: u8) -> usize
        ensures { result ≡ offset (parameters self) (Field.Commitment e) }
    {
        self.blocks_at() + e as usize * self.block_length()
    }

    /// The length of a record.
    pub fn record_length(self) -> usize
        ensures { result ≡ record_length (parameters self) }
    {
        self.block_at(self.tau)
    }

    /// The length of a book's entry.
    pub fn entry_length(self) -> usize
        ensures { result ≡ entry_length (parameters self) }
    {
        4 + (self.record_length() + (self.tau as usize + self.flag_length()))
    }

    /// How many bytes a field has.
    pub fn size(self, field: Field) -> usize
        ensures { result ≡ size (parameters self) field }
    {
        match field {
            Field::Mark => 3,
            Field::Version | Field::Rows | Field::Values | Field::AttributeBytes => 2,
            Field::Set | Field::Columns | Field::Depth | Field::Repetitions => 1,
            Field::SeedA => 16,
            Field::Salt | Field::FirstDigest | Field::SecondDigest | Field::Commitment(_) => {
                self.width()
            }
            Field::Attributes => self.a as usize,
            Field::Key => 2 * self.entries(),
            Field::Audited => self.m as usize - self.kept(),
            Field::Seeds(_) => 32 * self.h as usize,
            Field::Offsets(_) => 2 * self.m as usize,
        }
    }

    /// Where a field begins.
    pub fn offset(self, field: Field) -> usize
        ensures { result ≡ offset (parameters self) field }
    {
        match field {
            Field::Mark => 0,
            Field::Version => 3,
            Field::Set => 5,
            Field::Rows => 6,
            Field::Columns => 8,
            Field::Values => 9,
            Field::Depth => 11,
            Field::Repetitions => 12,
            Field::AttributeBytes => 13,
            Field::SeedA => 15,
            Field::Salt => 31,
            Field::FirstDigest => 31 + self.width(),
            Field::SecondDigest => 31 + 2 * self.width(),
            Field::Attributes => 31 + 3 * self.width(),
            Field::Key => 31 + 3 * self.width() + self.a as usize,
            Field::Audited => { 31 + 3 * self.width() + self.a as usize + 2 * self.entries() }
            Field::Commitment(e) => self.block_at(e),
            Field::Seeds(e) => self.block_at(e) + self.width(),
            Field::Offsets(e) => self.block_at(e) + self.width() + 32 * self.h as usize,
        }
    }

    /// How many fields a record has.
    pub fn field_count(self) -> usize
        ensures { result ≡ field_count (parameters self) }
    {
        LEADING.len() + 3 * self.tau as usize
    }

    /// The field that stands at an index of the record's order, counted from 0.
    pub fn field(self, index: usize) -> Option<Field>
        ensures { result ≡ slice_get (fields (parameters self)) index }
    {
        if index < LEADING.len() {
            return Some(LEADING[index]);
        }
        self.block_field(index - LEADING.len())
    }

    /// The number in a field of the header that is one.
    pub fn number(self, field: Field) -> Option<u16>
        ensures { result ≡ number_in (parameters self) field }
    {
        match field {
            Field::Version => Some(self.version),
            Field::Set => Some(u16::from(self.set.number())),
            Field::Rows => Some(self.n),
            Field::Columns => Some(u16::from(self.c)),
            Field::Values => Some(self.m),
            Field::Depth => Some(u16::from(self.h)),
            Field::Repetitions => Some(u16::from(self.tau)),
            Field::AttributeBytes => Some(self.a),
            Field::Mark
            | Field::SeedA
            | Field::Salt
            | Field::FirstDigest
            | Field::SecondDigest
            | Field::Attributes
            | Field::Key
            | Field::Audited
            | Field::Commitment(_)
            | Field::Seeds(_)
            | Field::Offsets(_) => None,
        }
    }

    /// The field at an index behind the audited values.
    fn block_field(self, index: usize) -> Option<Field>
        ensures { result ≡ slice_get (block_fields (parameters self).tau) index }
    {
        if index / 3 >= self.tau as usize {
            return None;
        }
        let e = (index / 3) as u8;
        match index % 3 {
            0 => Some(Field::Commitment(e)),
            1 => Some(Field::Seeds(e)),
            _ => Some(Field::Offsets(e)),
        }
    }
}

/// The fields, in the order of `Header::field` and end to end, are the whole record.
pub fn fields_tile()
    ensures { FieldsTile }
{}
