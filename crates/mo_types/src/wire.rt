//! Candid types: Candid specification, section "Types".
ghost use Rattle.std.specs.Prelude.{◌≡◌, Some};
ghost use Rattle.mo_types.specs.Wire.{plain_code, plain_of_code};

use crate::TypeId;
use mo_num::{Bytes, Sequence};

/// A Candid type without parts.
#[derive(Clone, Copy, Debug, PartialEq, Eq)]
pub enum Plain {
    Null,
    Bool,
    Nat,
    Int,
    Nat8,
    Nat16,
    Nat32,
    Nat64,
    Int8,
    Int16,
    Int32,
    Int64,
    Float32,
    Float64,
    Text,
    Reserved,
    Empty,
    Principal,
}

impl Plain {
    /// The byte that stands for the type: its negative number in one byte of SLEB128.
    pub fn code(self) -> u8
        ensures { result ≡ plain_code self }
    {
        match self {
            Plain::Null => 0x7f,
            Plain::Bool => 0x7e,
            Plain::Nat => 0x7d,
            Plain::Int => 0x7c,
            Plain::Nat8 => 0x7b,
            Plain::Nat16 => 0x7a,
            Plain::Nat32 => 0x79,
            Plain::Nat64 => 0x78,
            Plain::Int8 => 0x77,
            Plain::Int16 => 0x76,
            Plain::Int32 => 0x75,
            Plain::Int64 => 0x74,
            Plain::Float32 => 0x73,
            Plain::Float64 => 0x72,
            Plain::Text => 0x71,
            Plain::Reserved => 0x70,
            Plain::Empty => 0x6f,
            Plain::Principal => 0x68,
        }
    }

    /// The type that the byte stands for, if it is one without parts.
    pub fn from_code(code: u8) -> Option<Plain>
        ensures { result ≡ plain_of_code code }
    {
        match code {
            0x7f => Some(Plain::Null),
            0x7e => Some(Plain::Bool),
            0x7d => Some(Plain::Nat),
            0x7c => Some(Plain::Int),
            0x7b => Some(Plain::Nat8),
            0x7a => Some(Plain::Nat16),
            0x79 => Some(Plain::Nat32),
            0x78 => Some(Plain::Nat64),
            0x77 => Some(Plain::Int8),
            0x76 => Some(Plain::Int16),
            0x75 => Some(Plain::Int32),
            0x74 => Some(Plain::Int64),
            0x73 => Some(Plain::Float32),
            0x72 => Some(Plain::Float64),
            0x71 => Some(Plain::Text),
            0x70 => Some(Plain::Reserved),
            0x6f => Some(Plain::Empty),
            0x68 => Some(Plain::Principal),
            _ => None,
        }
    }
}

/// A part of a record or a variant, under the number of its label.
#[derive(Drop)]
pub struct Entry<T> {
    pub id: u32,
    pub part: T,
}

/// A method of a service, under its name.
#[derive(Drop)]
pub struct Method<T> {
    pub name: Bytes,
    pub part: T,
}

/// The head of a Candid type, with parts of any kind.
#[derive(Drop)]
pub enum Wire<T> {
    Simple(Plain),
    Opt(T),
    Vec(T),
    Record(Sequence<Entry<T>>),
    Variant(Sequence<Entry<T>>),
    /// Arguments, results, and the bytes of the annotations: 1 is `query`.
    Func(Sequence<T>, Sequence<T>, Bytes),
    Service(Sequence<Method<T>>),
}

/// A Candid type: that of a Motoko type, or one without parts.
#[derive(Clone, Copy, Debug, PartialEq, Eq)]
pub enum Ref<T = TypeId> {
    Of(T),
    Just(Plain),
}

/// A type as a header has it: one without parts, or an entry of its table.
#[derive(Clone, Copy, Debug, PartialEq, Eq)]
pub enum TableRef {
    Plainly(Plain),
    At(u32),
}
