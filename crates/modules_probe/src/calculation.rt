//! Numeric instructions and loads, by their names in the standard.
use crate::number::number_of;
use mo_num::Bytes;
use probe_base::Stop;
use std::alloc::{AllocError, Global};
use wasm_numeric::{binary, compare, convert, equals_zero, load, unary};
use wasm_tree::{BinaryOperator, Comparison, Conversion, LoadKind, Trap, UnaryOperator, ValueType};

const UNARY: &[(&[u8], UnaryOperator)] = &[
    (b"clz", UnaryOperator::Clz),
    (b"ctz", UnaryOperator::Ctz),
    (b"popcnt", UnaryOperator::Popcnt),
];

const BINARY: &[(&[u8], BinaryOperator)] = &[
    (b"add", BinaryOperator::Add),
    (b"sub", BinaryOperator::Sub),
    (b"mul", BinaryOperator::Mul),
    (b"div_s", BinaryOperator::DivS),
    (b"div_u", BinaryOperator::DivU),
    (b"rem_s", BinaryOperator::RemS),
    (b"rem_u", BinaryOperator::RemU),
    (b"and", BinaryOperator::And),
    (b"or", BinaryOperator::Or),
    (b"xor", BinaryOperator::Xor),
    (b"shl", BinaryOperator::Shl),
    (b"shr_s", BinaryOperator::ShrS),
    (b"shr_u", BinaryOperator::ShrU),
    (b"rotl", BinaryOperator::Rotl),
    (b"rotr", BinaryOperator::Rotr),
];

const COMPARISONS: &[(&[u8], Comparison)] = &[
    (b"eq", Comparison::Eq),
    (b"ne", Comparison::Ne),
    (b"lt_s", Comparison::LtS),
    (b"lt_u", Comparison::LtU),
    (b"gt_s", Comparison::GtS),
    (b"gt_u", Comparison::GtU),
    (b"le_s", Comparison::LeS),
    (b"le_u", Comparison::LeU),
    (b"ge_s", Comparison::GeS),
    (b"ge_u", Comparison::GeU),
];

const CONVERSIONS: &[(&[u8], Conversion)] = &[
    (b"i32.wrap_i64", Conversion::Wrap),
    (b"i64.extend_i32_s", Conversion::ExtendS),
    (b"i64.extend_i32_u", Conversion::ExtendU),
];

const LOADS: &[(&[u8], LoadKind)] = &[
    (b"i32.load", LoadKind::I32),
    (b"i64.load", LoadKind::I64),
    (b"i32.load8_s", LoadKind::I32From8S),
    (b"i32.load8_u", LoadKind::I32From8U),
    (b"i32.load16_s", LoadKind::I32From16S),
    (b"i32.load16_u", LoadKind::I32From16U),
    (b"i64.load8_s", LoadKind::I64From8S),
    (b"i64.load8_u", LoadKind::I64From8U),
    (b"i64.load16_s", LoadKind::I64From16S),
    (b"i64.load16_u", LoadKind::I64From16U),
    (b"i64.load32_s", LoadKind::I64From32S),
    (b"i64.load32_u", LoadKind::I64From32U),
];

/// What the instruction gives for the operands, in hexadecimal digits, or why it traps. The operands of a load are the
/// memory's bytes and the address.
pub(crate) fn calculate(alloc: Global, name: &[u8], operands: &[Bytes]) -> Result<String, Stop> {
    let value = match operands {
        [x] => of_one(name, number_of(x.as_slice())?),
        [x, y] => match load_kind(name) {
            Some(kind) => Some(load_from(kind, x.as_slice(), number_of(y.as_slice())?)),
            None => of_two(name, number_of(x.as_slice())?, number_of(y.as_slice())?),
        },
        _ => None,
    };
    match value {
        Some(value) => Ok(value_text(alloc, value)?),
        None => Err(Stop::Usage),
    }
}

fn value_text(alloc: Global, value: Result<u64, Trap>) -> Result<String, AllocError> {
    match value {
        Ok(value) => format!(in alloc; "0x{value:x}\n"),
        Err(trap) => format!(in alloc; "{trap:?}\n"),
    }
}

fn load_from(kind: LoadKind, memory: &[u8], address: u64) -> Result<u64, Trap> {
    load(kind, memory, address).ok_or(Trap::Bounds)
}

// The type that the name begins with, and the operator behind it.
fn split_name(name: &[u8]) -> Option<(ValueType, &[u8])> {
    match name {
        [b'i', b'3', b'2', b'.', operator @ ..] => Some((ValueType::I32, operator)),
        [b'i', b'6', b'4', b'.', operator @ ..] => Some((ValueType::I64, operator)),
        _ => None,
    }
}

fn of_one(name: &[u8], x: u64) -> Option<Result<u64, Trap>> {
    if let Some(conversion) = conversion(name) {
        return Some(Ok(convert(conversion, x)));
    }
    let (kind, operator) = split_name(name)?;
    if operator == b"eqz".as_slice() {
        return Some(Ok(equals_zero(kind, x)));
    }
    Some(Ok(unary(kind, unary_operator(operator)?, x)))
}

fn of_two(name: &[u8], x: u64, y: u64) -> Option<Result<u64, Trap>> {
    let (kind, operator) = split_name(name)?;
    match comparison(operator) {
        Some(comparison) => Some(Ok(compare(kind, comparison, x, y))),
        None => Some(binary(kind, binary_operator(operator)?, x, y)),
    }
}

fn conversion(name: &[u8]) -> Option<Conversion> {
    for (its, conversion) in CONVERSIONS {
        if *its == name {
            return Some(*conversion);
        }
    }
    None
}

fn unary_operator(name: &[u8]) -> Option<UnaryOperator> {
    for (its, operator) in UNARY {
        if *its == name {
            return Some(*operator);
        }
    }
    None
}

fn binary_operator(name: &[u8]) -> Option<BinaryOperator> {
    for (its, operator) in BINARY {
        if *its == name {
            return Some(*operator);
        }
    }
    None
}

fn comparison(name: &[u8]) -> Option<Comparison> {
    for (its, comparison) in COMPARISONS {
        if *its == name {
            return Some(*comparison);
        }
    }
    None
}

fn load_kind(name: &[u8]) -> Option<LoadKind> {
    for (its, kind) in LOADS {
        if *its == name {
            return Some(*kind);
        }
    }
    None
}
