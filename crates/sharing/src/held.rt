//! A holder of salt and master, and one who was asked for a key.
ghost use Rattle.std.specs.Prelude.{◌≡◌, length};
ghost use Rattle.protocol.specs.Flags.{ones};
ghost use Rattle.protocol.specs.Of.{parameters};
ghost use Rattle.protocol.specs.Parameters.{sigma};
ghost use Rattle.digest.specs.Short.{short_bytes};
ghost use Rattle.shares.specs.Drawing.{value_residues};

use digest::maker::DigestMaker;
use digest::short::ShortBytes;
use protocol::header::Header;
use std::alloc::AllocError;
use std::marker::PhantomData;

/// Salt and master, with the values modulo q that makers of the kind D draw on them.
pub struct Holder<'a, D: DigestMaker> {
    pub header: Header,
    pub salt: &'a ShortBytes,
    pub master: &'a [u8; 32],
    pub values: &'a [u16],
    pub of: PhantomData<D>,
    ghost drawn: { values.now ≡ value_residues D.DigestMaker.function (parameters header) (short_bytes salt.now) master.now },
}

// by hand: a derived Clone would ask that the makers too are copied
impl<'a, D: DigestMaker> Clone for Holder<'a, D> {
    ghost is_clone = { λ s t. t ≡ s };

    fn clone(&self) -> Result<Holder<'a, D>, AllocError> {
        Ok(*self)
    }
}

impl<'a, D: DigestMaker> Copy for Holder<'a, D> {}

/// A holder with the first answer of a challenger: seedA, and the flags of the values that are kept.
pub struct Asked<'a, D: DigestMaker> {
    pub holder: Holder<'a, D>,
    pub seed_a: &'a [u8; 16],
    pub flags: &'a [u16],
    ghost long: { length flags.now ≡ (parameters holder.header).m },
    ghost chosen: { ones flags.now ≡ sigma (parameters holder.header) },
}

// by hand, as of a holder
impl<'a, D: DigestMaker> Clone for Asked<'a, D> {
    ghost is_clone = { λ s t. t ≡ s };

    fn clone(&self) -> Result<Asked<'a, D>, AllocError> {
        Ok(*self)
    }
}

impl<'a, D: DigestMaker> Copy for Asked<'a, D> {}
