//! The codes of primitives.
ghost use Rattle.std.specs.Prelude.{◌≡◌, ◌++◌, ◌∷◌, [], ◌<◌, ◌+◌, ◌^◌, IfOk, OnOk, length};
ghost use Rattle.low_ir.specs.Flat.{flat};
ghost use Rattle.operation_codes.specs.Codes as codes;
ghost use Rattle.operation_lists.specs.Linked.{IsNoOperation, links_of};

use crate::links::ModuleLinks;
use crate::operations::{push_block, push_operation};
use crate::words::{push_copy, push_loads, push_prints, push_tells, push_writes};
use core_ir::Primitive;
use low_ir::{LowOp, Operand};
use mo_num::{Memory, Sequence};
use mo_types::Datum;
use std::alloc::Global;
use wasm_tree::Comparison as Test;

/// The literal of a number's word, with a sign. A number of a type has one.
pub fn signed_long(number: i128) -> Result<i64, Memory>
    ensures { IfOk result (λ word. word ≡ codes.signed_long number) }
{
    let word = if number <= 0x7fff_ffff_ffff_ffff {
        number
    } else {
        number - 0x1_0000_0000_0000_0000
    };
    match i64::try_from(word) {
        Ok(word) => Ok(word),
        Err(_) => Err(Memory),
    }
}

fn literal(datum: &Datum) -> Result<i64, Memory>
    ensures { IfOk result (λ word. word ≡ codes.literal datum.now) }
{
    match datum {
        Datum::Number(number) => signed_long(*number),
        Datum::Flag(flag) => Ok(if *flag { 1 } else { 0 }),
        Datum::Char(char) => Ok(*char as i64),
        Datum::Null
        | Datum::Text(_)
        | Datum::Blob(_)
        | Datum::Principal(_)
        | Datum::Actor(_)
        | Datum::Method(_, _)
        | Datum::Present
        | Datum::Many(_)
        | Datum::Record(_)
        | Datum::Tag(_) => Ok(0),
    }
}

fn push_unary(
    links: &ModuleLinks,
    primitive: &Primitive,
    to: u32,
    free: u32,
    a: Operand,
    list: &mut Sequence<LowOp>,
) -> Result<(), Memory>
    requires room { free + 3 < 2 ^ 32 }
    requires other { IsNoOperation primitive.now }
    ensures { OnOk result (list.new ≡ list.old ++ flat (codes.code_of (links_of links.now) primitive.now to free (a ∷ []))) }
{
    match primitive {
        Primitive::Copy => push_copy(to, a, list),
        Primitive::Is(datum) => {
            let word = literal(datum)?;
            push_tells(Test::Eq, to, free, Operand::Long(word), a, list)
        }
        Primitive::New => push_block(links, to, free, &[a, Operand::Long(0)], list),
        Primitive::Read => push_loads(to, free, 0, a, list),
        Primitive::Print => push_prints(to, free, a, list),
        Primitive::Operate(_)
        | Primitive::Write
        | Primitive::WriteElement
        | Primitive::ArrayInit
        | Primitive::ArrayFreeze
        | Primitive::ArrayThaw
        | Primitive::IsMutable
        | Primitive::NextChar => Ok(()),
    }
}

/// The code of a primitive on operands, which puts its value into a local, where three locals from another on are free.
pub fn push_primitive(
    alloc: Global,
    links: &ModuleLinks,
    primitive: &Primitive,
    to: u32,
    free: u32,
    operands: &[Operand],
    list: &mut Sequence<LowOp>,
) -> Result<(), Memory>
    requires { free + 3 < 2 ^ 32 }
    ensures { OnOk result (list.new ≡ list.old ++ flat (codes.code_of (links_of links.now) primitive.now to free operands.now)) }
{
    match primitive {
        Primitive::Operate(operation) => {
            push_operation(alloc, links, operation, to, free, operands, list)
        }
        Primitive::Write => match operands {
            [cell, value] => push_writes(to, free, *cell, *value, list),
            [] => Ok(()),
            [_] => Ok(()),
            _ => Ok(()),
        },
        Primitive::Copy | Primitive::Is(_) | Primitive::New | Primitive::Read | Primitive::Print =>
            match operands {
                [a] => push_unary(links, primitive, to, free, *a, list),
                [] => Ok(()),
                _ => Ok(()),
            },
        Primitive::WriteElement
        | Primitive::ArrayInit
        | Primitive::ArrayFreeze
        | Primitive::ArrayThaw
        | Primitive::IsMutable
        | Primitive::NextChar => Ok(()),
    }
}
