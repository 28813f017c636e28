//! The kinds of number of the language.
ghost use Rattle.std.specs.Prelude.{◌≡◌, pos, ◌≤ℤ◌};
ghost use Rattle.mo_num.specs.Kinds.{least, greatest, modulus};

/// A type of numbers: Motoko language manual, section "Numeric types". In this profile `Nat` is 0 to 2^63 - 1 and
/// `Int` is -2^63 to 2^63 - 1.
#[derive(Clone, Copy, Debug, PartialEq, Eq)]
pub enum Kind {
    Nat,
    Int,
    Nat8,
    Nat16,
    Nat32,
    Nat64,
    Int8,
    Int16,
    Int32,
    Int64,
}

impl Kind {
    /// The least value of the kind.
    pub fn least(self) -> i128
        ensures { result ≡ least self }
    {
        match self {
            Kind::Nat | Kind::Nat8 | Kind::Nat16 | Kind::Nat32 | Kind::Nat64 => 0,
            Kind::Int8 => -0x80,
            Kind::Int16 => -0x8000,
            Kind::Int32 => -0x8000_0000,
            Kind::Int | Kind::Int64 => -0x8000_0000_0000_0000,
        }
    }

    /// The greatest value of the kind.
    pub fn greatest(self) -> i128
        ensures { result ≡ greatest self }
    {
        match self {
            Kind::Nat8 => 0xff,
            Kind::Nat16 => 0xffff,
            Kind::Nat32 => 0xffff_ffff,
            Kind::Nat64 => 0xffff_ffff_ffff_ffff,
            Kind::Int8 => 0x7f,
            Kind::Int16 => 0x7fff,
            Kind::Int32 => 0x7fff_ffff,
            Kind::Nat | Kind::Int | Kind::Int64 => 0x7fff_ffff_ffff_ffff,
        }
    }

    /// How many values the kind has.
    pub fn modulus(self) -> i128
        ensures { result ≡ pos (modulus self) }
    {
        match self {
            Kind::Nat8 | Kind::Int8 => 0x100,
            Kind::Nat16 | Kind::Int16 => 0x1_0000,
            Kind::Nat32 | Kind::Int32 => 0x1_0000_0000,
            Kind::Nat => 0x8000_0000_0000_0000,
            Kind::Int | Kind::Nat64 | Kind::Int64 => 0x1_0000_0000_0000_0000,
        }
    }
}
