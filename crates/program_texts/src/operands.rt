//! Texts of operands and primitives.
ghost use Rattle.std.specs.Prelude.{◌≡◌, OnOk};
ghost use Rattle.core_ir.specs.declared.primitive.Primitive.TheVariants as primitive;
ghost use Rattle.core_ir.specs.CodeView.{Names, seen_names};
ghost use Rattle.low_emit.specs.Texts as texts;

use core_ir::{Constant, Operand, Primitive, Seen};
use mo_num::Memory;
use mo_types::Datum;
use mo_values::Operation;
use text_table::TextTable;

fn add_leaf(datum: &Datum, table: &mut TextTable) -> Result<(), Memory>
    ensures { OnOk result (table.new ≡ texts.leaf_texts datum.now table.old) }
{
    match datum {
        Datum::Text(text) | Datum::Blob(text) => table.add(text.as_slice()),
        Datum::Principal(principal) | Datum::Actor(principal) => table.add(principal.bytes()),
        Datum::Null
        | Datum::Flag(_)
        | Datum::Number(_)
        | Datum::Char(_)
        | Datum::Method(_, _)
        | Datum::Present
        | Datum::Many(_)
        | Datum::Record(_)
        | Datum::Tag(_) => Ok(()),
    }
}

fn add_constant(constant: &Constant, table: &mut TextTable) -> Result<(), Memory>
    ensures { OnOk result (table.new ≡ texts.constant_texts constant.now table.old) }
{
    match constant {
        Constant::Unit => Ok(()),
        Constant::Leaf(datum) => add_leaf(datum, table),
    }
}

/// The text of an operand, if it has one.
pub(crate) fn add_operand(operand: &Operand, table: &mut TextTable) -> Result<(), Memory>
    ensures { OnOk result (table.new ≡ texts.operand_texts operand.now table.old) }
{
    match operand {
        Operand::Constant(constant) => add_constant(constant.get(), table),
        Operand::Slot(_) | Operand::Captured(_) | Operand::Member(_) | Operand::Global(_) => Ok(()),
    }
}

/// The texts of operands.
pub(crate) fn add_operands(operands: &[Operand], table: &mut TextTable) -> Result<(), Memory>
    ensures { OnOk result (table.new ≡ texts.operands_texts operands.now table.old) }
{
    for operand in operands {
        add_operand(operand, table)?;
    }
    Ok(())
}

/// The texts of what functions see.
pub(crate) fn add_seen(seen: &Seen, table: &mut TextTable) -> Result<(), Memory>
    ensures { OnOk result ((names : Names) → table.new ≡ texts.operands_texts (seen_names names seen.now) table.old) }
{
    match seen {
        // Never in a program whose groups see what they use.
        Seen::Scope(_) => Err(Memory),
        Seen::Listed(operands) => add_operands(operands.as_slice(), table),
    }
}

fn add_operation(operation: &Operation, table: &mut TextTable) -> Result<(), Memory>
    ensures { OnOk result (table.new ≡ texts.primitive_texts (primitive.Operate operation.now) table.old) }
{
    match operation {
        Operation::Fail(text) => table.add(text.as_slice()),
        Operation::Arithmetic(_, _)
        | Operation::Wrap(_, _)
        | Operation::Negate(_)
        | Operation::Compare(_, _)
        | Operation::Same(_)
        | Operation::Equal(_)
        | Operation::Unequal(_)
        | Operation::Not
        | Operation::Assert
        | Operation::Concat
        | Operation::TextSize
        | Operation::ToText(_)
        | Operation::MakeTuple
        | Operation::MakeOption
        | Operation::MakeTag(_)
        | Operation::MakeArray
        | Operation::MakeObject(_)
        | Operation::Project(_)
        | Operation::Field(_)
        | Operation::Element
        | Operation::ArraySize
        | Operation::Method(_)
        | Operation::PrincipalOf
        | Operation::RejectError
        | Operation::Message
        | Operation::Code
        | Operation::Trap => Ok(()),
    }
}

/// The text of a primitive, if it has one.
pub(crate) fn add_primitive(of: &Primitive, table: &mut TextTable) -> Result<(), Memory>
    ensures { OnOk result (table.new ≡ texts.primitive_texts of.now table.old) }
{
    match of {
        Primitive::Operate(operation) => add_operation(operation, table),
        Primitive::Copy
        | Primitive::Is(_)
        | Primitive::New
        | Primitive::Read
        | Primitive::Write
        | Primitive::WriteElement
        | Primitive::ArrayInit
        | Primitive::ArrayFreeze
        | Primitive::ArrayThaw
        | Primitive::IsMutable
        | Primitive::NextChar
        | Primitive::Print => Ok(()),
    }
}
