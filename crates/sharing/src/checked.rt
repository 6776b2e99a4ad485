//! A repetition of a record, as a checker has it who knows the hidden parties.
ghost use Rattle.std.specs.Prelude.{◌≡◌, ◌*◌, ◌<◌, length, slice_index};
ghost use Rattle.protocol.specs.declared.field.Field.TheVariants as field;
ghost use Rattle.protocol.specs.Layout.{field_part};
ghost use Rattle.protocol.specs.Of.{parameters};
ghost use Rattle.protocol.specs.Parameters.{width, parties};
ghost use Rattle.digest.specs.Short.{short_bytes};

use digest::short::ShortBytes;
use protocol::field::Field;
use record::whole::Whole;

/// A whole record, its salt, the hidden party of each repetition, and which repetition is checked.
#[derive(Clone, Copy)]
pub struct Checked<'a> {
    pub whole: Whole<'a>,
    pub salt: &'a ShortBytes,
    pub hidden: &'a [u8],
    pub number: u8,
    ghost salted: { short_bytes salt.now ≡ field_part (parameters whole.view.header) whole.view.bytes.now field.Salt },
    ghost within: { number < (parameters whole.view.header).tau },
    ghost hidden_long: { length hidden.now ≡ (parameters whole.view.header).tau },
    ghost party: { slice_index hidden.now number < parties (parameters whole.view.header) },
}

/// The fields of one repetition of a record.
#[derive(Clone, Copy)]
pub(crate) struct Block<'a> {
    pub(crate) commitment: &'a [u8],
    pub(crate) seeds: &'a [u8],
    pub(crate) offsets: &'a [u8],
}

impl<'a> Checked<'a> {
    /// The hidden party.
    pub(crate) fn party(self) -> usize
        ensures { result ≡ slice_index self.entry.hidden.now self.entry.number }
    {
        self.hidden[self.number as usize] as usize
    }

    pub(crate) fn block(self) -> Block<'a>
        ensures commitment { result.commitment.now ≡ field_part (parameters self.entry.whole.view.header) self.entry.whole.view.bytes.now (field.Commitment self.entry.number) }
        ensures commitment_long { length result.commitment.now ≡ width (parameters self.entry.whole.view.header) }
        ensures seeds { result.seeds.now ≡ field_part (parameters self.entry.whole.view.header) self.entry.whole.view.bytes.now (field.Seeds self.entry.number) }
        ensures seeds_long { length result.seeds.now ≡ 32 * (parameters self.entry.whole.view.header).h }
        ensures offsets { result.offsets.now ≡ field_part (parameters self.entry.whole.view.header) self.entry.whole.view.bytes.now (field.Offsets self.entry.number) }
        ensures offsets_long { length result.offsets.now ≡ 2 * (parameters self.entry.whole.view.header).m }
    {
        Block {
            commitment: self.whole.view.part(Field::Commitment(self.number)).bytes,
            seeds: self.whole.view.part(Field::Seeds(self.number)).bytes,
            offsets: self.whole.view.part(Field::Offsets(self.number)).bytes,
        }
    }

    /// The seed of A.
    pub(crate) fn seed_a(self) -> [u8; 16]
        ensures { result ≡ field_part (parameters self.entry.whole.view.header) self.entry.whole.view.bytes.now field.SeedA }
    {
        let mut seed = [0; 16];
        seed.copy_from_slice(self.whole.view.part(Field::SeedA).bytes);
        seed
    }
}
