//! The three sets of constants: the modulus q, the bound on a value, the sampling table.
ghost use Rattle.std.specs.Prelude.{◌≡◌, ◌-◌};
ghost use Rattle.protocol.specs.Parameters.{modulus, bound, table};
ghost use Rattle.protocol.specs.Sets.{number, Named};

/// A set, as a header numbers it.
#[derive(Clone, Copy, PartialEq, Eq, Debug)]
pub enum Set {
    One,
    Two,
    Three,
}

/// A number that no set has.
#[derive(Clone, Copy, PartialEq, Eq, Debug)]
pub struct UnknownSet(pub u8);

const TABLE_ONE: [u16; 13] = [
    4643, 13363, 20579, 25843, 29227, 31145, 32103, 32525, 32689, 32745, 32762, 32766, 32767,
];

const TABLE_TWO: [u16; 11] = [
    5638, 15915, 23689, 28571, 31116, 32217, 32613, 32731, 32760, 32766, 32767,
];

const TABLE_THREE: [u16; 7] = [9142, 23462, 30338, 32361, 32725, 32765, 32767];

impl TryFrom<u8> for Set {
    type Error = UnknownSet;

    ghost try_from_gives = { Named };

    fn try_from(number: u8) -> Result<Self, UnknownSet> {
        match number {
            1 => Ok(Set::One),
            2 => Ok(Set::Two),
            3 => Ok(Set::Three),
            _ => Err(UnknownSet(number)),
        }
    }
}

impl Set {
    /// Its number in a header.
    pub fn number(self) -> u8
        ensures { result ≡ number self }
    {
        match self {
            Set::One => 1,
            Set::Two => 2,
            Set::Three => 3,
        }
    }

    /// The modulus q.
    pub fn modulus(self) -> u32
        ensures { result ≡ modulus (number self) }
    {
        match self {
            Set::One => 32768,
            Set::Two | Set::Three => 65536,
        }
    }

    /// The modulus less one: every modulus is a power of two, so that it masks what is left modulo q.
    pub fn mask(self) -> u16
        ensures { result ≡ modulus (number self) - 1 }
    {
        match self {
            Set::One => 32767,
            Set::Two | Set::Three => 65535,
        }
    }

    /// The largest size of a value.
    pub fn bound(self) -> u8
        ensures { result ≡ bound (number self) }
    {
        match self {
            Set::One => 12,
            Set::Two => 10,
            Set::Three => 6,
        }
    }

    /// The sampling table.
    pub fn table(self) -> &'static [u16]
        ensures { result.now ≡ table (number self) }
    {
        match self {
            Set::One => &TABLE_ONE,
            Set::Two => &TABLE_TWO,
            Set::Three => &TABLE_THREE,
        }
    }
}
