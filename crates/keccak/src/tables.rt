//! The tables of the permutation, as the standard makes them.
ghost use Rattle.keccak.specs.Tables.{ConstantsByRegister, OffsetsByWalk};

// What iota adds to the first lane, round by round.
pub(crate) const ROUND_CONSTANTS: [u64; 24] = [
    0x0000000000000001,
    0x0000000000008082,
    0x800000000000808a,
    0x8000000080008000,
    0x000000000000808b,
    0x0000000080000001,
    0x8000000080008081,
    0x8000000000008009,
    0x000000000000008a,
    0x0000000000000088,
    0x0000000080008009,
    0x000000008000000a,
    0x000000008000808b,
    0x800000000000008b,
    0x8000000000008089,
    0x8000000000008003,
    0x8000000000008002,
    0x8000000000000080,
    0x000000000000800a,
    0x800000008000000a,
    0x8000000080008081,
    0x8000000000008080,
    0x0000000080000001,
    0x8000000080008008,
];

// By how much rho rotates each lane; lane (x, y) stands at 5 * y + x.
pub(crate) const OFFSETS: [u32; 25] = [
    0, 1, 62, 28, 27, 36, 44, 6, 55, 20, 3, 10, 43, 25, 39, 41, 45, 15, 21, 8, 18, 2, 61, 56, 14,
];

/// Every round constant has the bits of the standard's shift register.
pub fn constants_by_register()
    ensures { ConstantsByRegister }
{}

/// Every rotation of rho is the one of the standard's walk through the lanes.
pub fn offsets_by_walk()
    ensures { OffsetsByWalk }
{}
