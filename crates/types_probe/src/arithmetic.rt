//! Arithmetic: `add`, `sub`, `mul`, `div`, `rem`, `pow` and `neg` are exact or trap, `add_wrap`, `sub_wrap` and
//! `mul_wrap` wrap.
ghost use Rattle.std.specs.Prelude.{IsTrue};
ghost use Rattle.mo_num.specs.Kinds.{InRange, IsFixed};

use crate::built_in::kind_of;
use mo_num::{Bytes, Kind, NumTrap, Operator, add_wrap, calculate, mul_wrap, neg, sub_wrap};
use probe_base::{Stop, number_of};
use std::alloc::Global;

fn operator_of(name: &[u8]) -> Option<Operator> {
    match name {
        b"add" => Some(Operator::Add),
        b"sub" => Some(Operator::Sub),
        b"mul" => Some(Operator::Mul),
        b"div" => Some(Operator::Div),
        b"rem" => Some(Operator::Rem),
        b"pow" => Some(Operator::Pow),
        _ => None,
    }
}

fn wrapped(name: &[u8], kind: Kind, a: i128, b: i128) -> Result<i128, Stop>
    requires fixed { IsFixed kind }
    requires left { InRange kind a }
    requires right { InRange kind b }
{
    match name {
        b"add_wrap" => Ok(add_wrap(a, b, kind)),
        b"sub_wrap" => Ok(sub_wrap(a, b, kind)),
        b"mul_wrap" => Ok(mul_wrap(a, b, kind)),
        _ => Err(Stop::Usage),
    }
}

fn is_fixed(kind: Kind) -> bool
    ensures { IsTrue result → IsFixed kind }
{
    match kind {
        Kind::Nat | Kind::Int => false,
        Kind::Nat8 | Kind::Nat16 | Kind::Nat32 | Kind::Nat64 => true,
        Kind::Int8 | Kind::Int16 | Kind::Int32 | Kind::Int64 => true,
    }
}

fn line(alloc: Global, outcome: Result<i128, NumTrap>) -> Result<String, Stop> {
    match outcome {
        Ok(number) => Ok(format!(in alloc; "{number}\n")?),
        Err(trap) => Ok(format!(in alloc; "{trap:?}\n")?),
    }
}

/// OPERATOR KIND A B: the result of an operator on two numbers of a kind, or the trap.
pub(crate) fn answer(alloc: Global, words: &[Bytes]) -> Result<String, Stop> {
    let [name, kind, a, b] = words else {
        return Err(Stop::Usage);
    };
    let kind = kind_of(kind.as_slice()).ok_or(Stop::Usage)?;
    let a: i128 = number_of(a.as_slice())?;
    let b: i128 = number_of(b.as_slice())?;
    if a < kind.least() || kind.greatest() < a {
        return Err(Stop::Usage);
    }
    if b < kind.least() || kind.greatest() < b {
        return Err(Stop::Usage);
    }
    match operator_of(name.as_slice()) {
        Some(operator) => line(alloc, calculate(operator, a, b, kind)),
        None if is_fixed(kind) => line(alloc, Ok(wrapped(name.as_slice(), kind, a, b)?)),
        None => Err(Stop::Usage),
    }
}

/// KIND NUMBER: the number with the other sign, or the trap.
pub(crate) fn negation(alloc: Global, words: &[Bytes]) -> Result<String, Stop> {
    let [kind, number] = words else {
        return Err(Stop::Usage);
    };
    let kind = kind_of(kind.as_slice()).ok_or(Stop::Usage)?;
    let number: i128 = number_of(number.as_slice())?;
    if number < kind.least() || kind.greatest() < number {
        return Err(Stop::Usage);
    }
    line(alloc, neg(number, kind))
}
