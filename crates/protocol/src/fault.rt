//! Why a call is refused.

/// One variant for each cause, with what its place needs. docs/REFUSALS.md has the table.
#[derive(Clone, Copy, PartialEq, Eq, Debug)]
pub enum Fault {
    /// Fewer bytes than a header has.
    Short,
    /// The first three bytes are not the mark.
    Mark,
    /// The version is not known.
    Version,
    /// The header field at this offset is past its limit.
    Limit { offset: usize },
    /// A record or attributes of another length than is due.
    Length { due: usize },
    /// An entry of B or an offset, at this place of the record, is q or more.
    Residue { offset: usize },
    /// An audited value, at this place of the record, is outside the bound.
    Audited { offset: usize },
    /// The first digest is not met.
    FirstDigest,
    /// The second digest is not met.
    SecondDigest,
    /// The working memory has fewer sixteen-bit numbers than are due.
    Memory { due: usize },
    /// A rebuilt digest is not the ceremony's.
    Rebuilt,
    /// The output has fewer bytes than are due.
    Output { due: usize },
    /// The book has no room for an entry of this many bytes.
    Full { bytes: usize },
    /// The book has no entry of this number.
    Missing { number: usize },
    /// A take after a draw, or an answer before a question.
    Turn,
    /// More bytes than a digest maker or a challenger handles.
    PastLimit,
    /// Two entries differ in header, salt or a digest.
    Unequal,
    /// No such repetition, or it hides the same party twice.
    Repetition { number: usize },
}

/// Where in the product a refusal arises.
#[derive(Clone, Copy, PartialEq, Eq, Debug)]
pub enum Layer {
    Header,
    Memory,
    Book,
    Body,
    Digest,
    Ceremony,
    Maker,
}
