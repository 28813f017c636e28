//! Constants and what is done at once with values.
use crate::pieces::{
    put_bare, put_flag, put_kind, put_names, put_numbered, put_text, put_texted, put_type,
    put_word, put_worded,
};
use crate::types::kind_word;
use core_ir::{Constant, Constructor, Primitive};
use mo_num::{Bytes, Kind, Memory, Operator};
use mo_types::{Datum, TypeId};
use mo_values::{Comparison, Operation, Scalar, Wrapping};
use play_script::put_decimal;
use std::alloc::Global;

// A number, which has a sign and 64 bits at most.
fn put_number(value: i128, out: &mut Bytes) -> Result<(), Memory> {
    if value < 0 {
        out.extend(b"-")?;
    }
    match u64::try_from(value.unsigned_abs()) {
        Ok(amount) => put_decimal(amount, out),
        Err(_) => Err(Memory),
    }
}

fn put_method(alloc: Global, actor: &[u8], name: &[u8], out: &mut Bytes) -> Result<(), Memory> {
    put_kind(b"method", out)?;
    put_text(alloc, actor, out)?;
    out.extend(b",")?;
    put_text(alloc, name, out)?;
    out.extend(b"]")
}

fn put_datum(alloc: Global, datum: &Datum, out: &mut Bytes) -> Result<(), Memory> {
    match datum {
        Datum::Null => put_bare(b"null", out),
        Datum::Flag(flag) => {
            put_kind(b"bool", out)?;
            put_flag(*flag, out)?;
            out.extend(b"]")
        }
        Datum::Number(value) => {
            put_kind(b"number", out)?;
            put_number(*value, out)?;
            out.extend(b"]")
        }
        Datum::Char(code) => put_numbered(b"char", *code, out),
        Datum::Text(text) => put_texted(alloc, b"text", text.as_slice(), out),
        Datum::Blob(bytes) => put_texted(alloc, b"blob", bytes.as_slice(), out),
        Datum::Principal(principal) => put_texted(alloc, b"principal", principal.bytes(), out),
        Datum::Actor(principal) => put_texted(alloc, b"actor", principal.bytes(), out),
        Datum::Method(principal, name) => put_method(
            alloc,
            principal.bytes(),
            name.as_slice(),
            out,
        ),
        Datum::Present => put_bare(b"present", out),
        Datum::Many(count) => put_numbered(b"many", *count, out),
        Datum::Record(count) => put_numbered(b"record", *count, out),
        Datum::Tag(number) => put_numbered(b"tag", *number, out),
    }
}

/// A constant.
pub(crate) fn put_constant(
    alloc: Global,
    constant: &Constant,
    out: &mut Bytes,
) -> Result<(), Memory> {
    match constant {
        Constant::Unit => put_bare(b"unit", out),
        Constant::Leaf(datum) => put_datum(alloc, datum, out),
    }
}

fn operator_word(operator: Operator) -> &'static [u8] {
    match operator {
        Operator::Add => b"+",
        Operator::Sub => b"-",
        Operator::Mul => b"*",
        Operator::Div => b"/",
        Operator::Rem => b"%",
        Operator::Pow => b"**",
    }
}

fn wrapping_word(wrapping: Wrapping) -> &'static [u8] {
    match wrapping {
        Wrapping::AddWrap => b"+%",
        Wrapping::SubWrap => b"-%",
        Wrapping::MulWrap => b"*%",
    }
}

fn comparison_word(comparison: Comparison) -> &'static [u8] {
    match comparison {
        Comparison::Less => b"<",
        Comparison::LessOrEqual => b"<=",
        Comparison::Greater => b">",
        Comparison::GreaterOrEqual => b">=",
    }
}

fn scalar_word(scalar: Scalar) -> &'static [u8] {
    match scalar {
        Scalar::Bool => b"Bool",
        Scalar::Number(kind) => kind_word(kind),
        Scalar::Char => b"Char",
        Scalar::Text => b"Text",
        Scalar::Blob => b"Blob",
    }
}

// Its kind and two words.
fn put_both(word: &[u8], first: &[u8], second: &[u8], out: &mut Bytes) -> Result<(), Memory> {
    put_kind(word, out)?;
    put_word(first, out)?;
    out.extend(b",")?;
    put_word(second, out)?;
    out.extend(b"]")
}

// Its kind and a type.
fn put_typed(word: &[u8], id: TypeId, out: &mut Bytes) -> Result<(), Memory> {
    put_kind(word, out)?;
    put_type(id, out)?;
    out.extend(b"]")
}

fn put_operation(alloc: Global, operation: &Operation, out: &mut Bytes) -> Result<(), Memory> {
    match operation {
        Operation::Arithmetic(operator, kind) => {
            put_both(
                b"arithmetic",
                operator_word(*operator),
                kind_word(*kind),
                out,
            )
        }
        Operation::Wrap(wrapping, kind) => {
            put_both(b"wrap", wrapping_word(*wrapping), kind_word(*kind), out)
        }
        Operation::Negate(kind) => put_worded(b"negate", kind_word(*kind), out),
        Operation::Compare(comparison, scalar) => {
            put_both(
                b"compare",
                comparison_word(*comparison),
                scalar_word(*scalar),
                out,
            )
        }
        Operation::Same(scalar) => put_worded(b"same", scalar_word(*scalar), out),
        Operation::Equal(of) => put_typed(b"equal", *of, out),
        Operation::Unequal(of) => put_typed(b"unequal", *of, out),
        Operation::Not => put_bare(b"not", out),
        Operation::Assert => put_bare(b"assert", out),
        Operation::Concat => put_bare(b"concat", out),
        Operation::TextSize => put_bare(b"text size", out),
        Operation::ToText(kind) => put_worded(b"to text", kind_word(*kind), out),
        Operation::MakeTuple => put_bare(b"tuple", out),
        Operation::MakeOption => put_bare(b"option", out),
        Operation::MakeTag(tag) => put_texted(alloc, b"tag", tag.as_slice(), out),
        Operation::MakeArray => put_bare(b"array", out),
        Operation::MakeObject(labels) => {
            put_kind(b"object", out)?;
            put_names(alloc, labels.as_slice(), out)?;
            out.extend(b"]")
        }
        Operation::Project(number) => put_numbered(b"project", *number, out),
        Operation::Field(label) => put_texted(alloc, b"field", label.as_slice(), out),
        Operation::Element => put_bare(b"element", out),
        Operation::ArraySize => put_bare(b"array size", out),
        Operation::Method(name) => put_texted(alloc, b"method", name.as_slice(), out),
        Operation::PrincipalOf => put_bare(b"principal of", out),
        Operation::RejectError => put_bare(b"reject error", out),
        Operation::Message => put_bare(b"message", out),
        Operation::Code => put_bare(b"code", out),
        Operation::Trap => put_bare(b"trap", out),
        Operation::Fail(text) => put_texted(alloc, b"fail", text.as_slice(), out),
    }
}

/// What is done at once.
pub(crate) fn put_primitive(
    alloc: Global,
    primitive: &Primitive,
    out: &mut Bytes,
) -> Result<(), Memory> {
    match primitive {
        Primitive::Operate(operation) => put_operation(alloc, operation, out),
        Primitive::Copy => put_bare(b"copy", out),
        Primitive::Is(datum) => {
            put_kind(b"is", out)?;
            put_datum(alloc, datum, out)?;
            out.extend(b"]")
        }
        Primitive::New => put_bare(b"new", out),
        Primitive::Read => put_bare(b"read", out),
        Primitive::Write => put_bare(b"write", out),
        Primitive::WriteElement => put_bare(b"write element", out),
        Primitive::ArrayInit => put_bare(b"array init", out),
        Primitive::ArrayFreeze => put_bare(b"array freeze", out),
        Primitive::ArrayThaw => put_bare(b"array thaw", out),
        Primitive::IsMutable => put_bare(b"is mutable", out),
        Primitive::NextChar => put_bare(b"next char", out),
        Primitive::Print => put_bare(b"print", out),
    }
}

/// A form.
pub(crate) fn put_constructor(
    alloc: Global,
    constructor: &Constructor,
    out: &mut Bytes,
) -> Result<(), Memory> {
    match constructor {
        Constructor::Present => put_bare(b"present", out),
        Constructor::Tagged(tag) => put_texted(alloc, b"tag", tag.as_slice(), out),
    }
}
