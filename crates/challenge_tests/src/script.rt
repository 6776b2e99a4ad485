//! A challenger of the tests' own.
ghost use Rattle.std.specs.Prelude.{◌≤◌};
ghost use Rattle.std.specs.Option.{option_map_or};

/// Both its streams have one byte at 0, another at 8, and zeros elsewhere.
#[derive(Drop)]
pub struct Scripted {
    pub(crate) one: u8,
    pub(crate) two: u8,
    /// How many bytes were filled since the last question: none before the first.
    pub(crate) filled: Option<u64>,
    ghost within: { option_map_or (λ n. n) filled 0 ≤ 4294967295 },
}
