//! The challengers that answer by a digest maker: derived from the record itself, and drawn from the station's own values.
ghost use Rattle.std.specs.Prelude.{◌≡◌, None, Some, option_map};
ghost use Rattle.protocol.specs.Texts.{derived_first, derived_second, drawn_first, drawn_second};
ghost use Rattle.challenge.specs.Answering.{by_maker, drawn_on_first, drawn_on_second};

use crate::challenger::Challenger;
use crate::questions::{OfRecord, OfStation, Questions};
use digest::maker::DigestMaker;
use digest::short::ShortBytes;
use protocol::fault::Fault;

/// Answers by digests of the texts of its questions.
#[derive(Drop)]
pub struct ByMaker<Q: Questions, D: DigestMaker> {
    questions: Q,
    /// What took the text last asked: none before the first question.
    maker: Option<D>,
}

/// Answers by digests of what the record says itself.
pub type Derived<D> = ByMaker<OfRecord, D>;

/// Answers by digests of two values of the station's own.
pub type Drawn<D> = ByMaker<OfStation, D>;

impl<D: DigestMaker> Derived<D> {
    /// One that was not asked yet.
    pub fn new() -> Self
        ensures answers { ⟦<Derived<D> as Challenger>⟧.answers result ≡ by_maker (derived_first D.DigestMaker.function) (derived_second D.DigestMaker.function) None }
    {
        ByMaker {
            questions: OfRecord {},
            maker: None,
        }
    }
}

impl<D: DigestMaker> Drawn<D> {
    /// One of these station values, that was not asked yet.
    pub fn new(one: [u8; 32], two: [u8; 32]) -> Self
        ensures answers { ⟦<Drawn<D> as Challenger>⟧.answers result ≡ by_maker (drawn_first D.DigestMaker.function one) (drawn_second D.DigestMaker.function two) None }
        ensures one { result.questions.one ≡ one }
        ensures two { result.questions.two ≡ two }
    {
        ByMaker {
            questions: OfStation { one, two },
            maker: None,
        }
    }
}

/// The maker of an earlier question, or a new one.
fn take_maker<D: DigestMaker>(held: &mut Option<D>) -> D
    ensures { held.new ≡ None }
{
    match held.take() {
        None => D::new(),
        Some(maker) => maker,
    }
}

/// Puts a maker into an empty place: one that is taken could not be let go, since makers need not be `Drop`.
fn put_maker<D: DigestMaker>(held: &mut Option<D>, maker: D)
    requires { held.old ≡ None }
    ensures { held.new ≡ Some maker }
{
    match held.replace(maker) {
        None => {}
        Some(_earlier) => unreachable!(),
    }
}

impl<Q: Questions, D: DigestMaker> Challenger for ByMaker<Q, D> {
    ghost answers = { λ s. by_maker (drawn_on_first D.DigestMaker.function (Q.Questions.first_text s.questions)) (drawn_on_second D.DigestMaker.function (Q.Questions.second_text s.questions)) (option_map D.DigestMaker.means s.maker) };

    fn first(&mut self, salt: &ShortBytes, d1: &ShortBytes) {
        let mut maker = take_maker(&mut self.maker);
        self.questions.take_first(&mut maker, salt, d1);
        put_maker(&mut self.maker, maker);
    }

    fn second(&mut self, salt: &ShortBytes, d1: &ShortBytes, d2: &ShortBytes) {
        let mut maker = take_maker(&mut self.maker);
        self.questions.take_second(&mut maker, salt, d1, d2);
        put_maker(&mut self.maker, maker);
    }

    fn next(&mut self, out: &mut [u8]) -> Result<(), Fault> {
        match &mut self.maker {
            None => Err(Fault::Turn),
            Some(maker) => maker.draw(out),
        }
    }
}
