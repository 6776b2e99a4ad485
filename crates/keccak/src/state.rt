//! What a sponge holds, and a SHAKE256 maker.
ghost use Rattle.std.specs.Prelude.{◌≡◌, ◌%◌, ◌<◌, ◌≤◌};
ghost use Rattle.digest.specs.Making.{limit};

/// A sponge with blocks of RATE bytes. As it takes a text, the first `filled` bytes of the block wait to be absorbed; as it gives its
/// stream, `used` bytes of the lanes were given.
// Two numbers: an enum of both would ask each method for a case that the calls before it rule out.
#[derive(Drop)]
pub(crate) struct Sponge<const RATE: usize> {
    pub(crate) lanes: [u64; 25],
    pub(crate) block: [u8; RATE],
    pub(crate) filled: usize,
    pub(crate) used: usize,
    ghost words: { (RATE ≤ 200) × (RATE % 8 ≡ 0) },
    ghost places: { (filled < RATE) × (used ≤ RATE) },
}

/// The text is taken while nothing was drawn, and from then on the stream is given.
#[derive(Drop)]
pub struct Shake256 {
    pub(crate) sponge: Sponge<136>,
    pub(crate) taken: u64,
    pub(crate) drawn: u64,
    ghost within: { (taken ≤ limit) × (drawn ≤ limit) },
}
