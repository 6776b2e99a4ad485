//! What is asked: the two texts that a challenger draws its answers on.
ghost use Rattle.std.specs.Prelude.{◌≡◌, ℕ, List};
ghost use Rattle.digest.specs.Making.{Holding};
ghost use Rattle.digest.specs.Short.{short_bytes};
ghost use Rattle.protocol.specs.Texts.{text8, text9, text10, text11};

use digest::maker::DigestMaker;
use digest::short::ShortBytes;
use digest::text::take_text;

pub trait Questions {
    // the text of the first question, from salt and d1
    ghost first_text: { Self → List ℕ → List ℕ → List ℕ };

    // the text of the second, from salt, d1 and d2
    ghost second_text: { Self → List ℕ → List ℕ → List ℕ → List ℕ };

    /// Begins the maker, and has it take the text of the first question.
    fn take_first<D: DigestMaker>(&self, maker: &mut D, salt: &ShortBytes, d1: &ShortBytes)
        ensures { Holding D.DigestMaker.function (first_text self.now (short_bytes salt.now) (short_bytes d1.now)) (D.DigestMaker.means maker.new) };

    /// Begins the maker, and has it take the text of the second question.
    fn take_second<D: DigestMaker>(
        &self,
        maker: &mut D,
        salt: &ShortBytes,
        d1: &ShortBytes,
        d2: &ShortBytes,
    )
        ensures { Holding D.DigestMaker.function (second_text self.now (short_bytes salt.now) (short_bytes d1.now) (short_bytes d2.now)) (D.DigestMaker.means maker.new) };
}

/// Questions of what the record says itself.
#[derive(Drop)]
pub struct OfRecord {}

/// Questions of two values of the station's own.
#[derive(Drop)]
pub struct OfStation {
    pub(crate) one: [u8; 32],
    pub(crate) two: [u8; 32],
}

impl Questions for OfRecord {
    ghost first_text = { λ _. text8 };

    ghost second_text = { λ _. text9 };

    fn take_first<D: DigestMaker>(&self, maker: &mut D, salt: &ShortBytes, d1: &ShortBytes) {
        take_text(maker, 8, salt.as_slice(), d1.as_slice(), &[]);
    }

    fn take_second<D: DigestMaker>(
        &self,
        maker: &mut D,
        salt: &ShortBytes,
        d1: &ShortBytes,
        d2: &ShortBytes,
    ) {
        take_text(maker, 9, salt.as_slice(), d1.as_slice(), d2.as_slice());
    }
}

impl Questions for OfStation {
    ghost first_text = { λ s salt d1. text10 s.one };

    ghost second_text = { λ s salt d1 d2. text11 s.two };

    fn take_first<D: DigestMaker>(&self, maker: &mut D, _salt: &ShortBytes, _d1: &ShortBytes) {
        take_text(maker, 10, &self.one, &[], &[]);
    }

    fn take_second<D: DigestMaker>(
        &self,
        maker: &mut D,
        _salt: &ShortBytes,
        _d1: &ShortBytes,
        _d2: &ShortBytes,
    ) {
        take_text(maker, 11, &self.two, &[], &[]);
    }
}
