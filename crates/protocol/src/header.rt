//! The numbers that a record's header fixes.
ghost use Rattle.std.specs.Prelude.{◌≡◌, ◌+◌, ◌*◌, ◌≤◌};

use crate::set::Set;

/// A header whose fields lie within their limits.
#[derive(Clone, Copy)]
pub struct Header {
    pub version: u16,
    /// Which constants: modulus, bound and sampling table.
    pub set: Set,
    /// Rows of S, E and B, and the order of A.
    pub n: u16,
    /// Columns of S, E and B.
    pub c: u8,
    /// How many values are made.
    pub m: u16,
    /// Depth of the seed tree.
    pub h: u8,
    /// Repetitions.
    pub tau: u8,
    /// Bytes of attributes.
    pub a: u16,
    ghost version_known: { version ≡ 1 },
    ghost n_limits: { (1 ≤ n) × (n ≤ 1344) },
    ghost c_limits: { (1 ≤ c) × (c ≤ 8) },
    ghost m_limits: { (2 * (n * c) + 1 ≤ m) × (m ≤ 32768) },
    ghost h_limits: { (1 ≤ h) × (h ≤ 8) },
    ghost tau_limits: { (1 ≤ tau) × (tau ≤ 64) },
    ghost a_limit: { a ≤ 1024 },
}
