//! The fields of a record.

/// A field of a record, by its place in the record's order; those behind the audited values stand once in each repetition.
#[derive(Clone, Copy, PartialEq, Eq, Debug)]
pub enum Field {
    Mark,
    Version,
    Set,
    Rows,
    Columns,
    Values,
    Depth,
    Repetitions,
    AttributeBytes,
    SeedA,
    Salt,
    FirstDigest,
    SecondDigest,
    Attributes,
    Key,
    Audited,
    /// The hidden party's commitment in this repetition.
    Commitment(u8),
    /// The seeds beside the path to the hidden party's leaf, from the top down.
    Seeds(u8),
    /// The offsets of all values in this repetition.
    Offsets(u8),
}
