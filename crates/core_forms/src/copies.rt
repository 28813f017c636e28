//! Parts of the typed program that stand in the other one, too.
ghost use Rattle.std.specs.Prelude.{◌≡◌, IfOk};

use mo_num::{Bytes, Memory, Sequence};
use mo_types::TypeId;
use mo_values::Operation;
use std::alloc::Global;

/// The bytes again.
pub fn bytes_again(alloc: Global, bytes: &Bytes) -> Result<Bytes, Memory>
    ensures { IfOk result (λ made. made ≡ bytes.now) }
{
    Ok(Bytes::from_slice(alloc, bytes.as_slice())?)
}

/// The types again.
pub fn types_again(alloc: Global, types: &Sequence<TypeId>) -> Result<Sequence<TypeId>, Memory>
    ensures { IfOk result (λ made. made ≡ types.now) }
{
    Ok(Sequence::from_vec(Vec::from_slice(alloc, types.as_slice())?))
}

// The labels again.
fn labels_again(alloc: Global, labels: &Sequence<Bytes>) -> Result<Sequence<Bytes>, Memory>
    ensures { IfOk result (λ made. made ≡ labels.now) }
{
    let mut made = Vec::with_capacity(alloc, labels.len())?;
    for label in labels.as_slice() {
        made.push(bytes_again(alloc, label)?)?;
    }
    Ok(Sequence::from_vec(made))
}

/// The operation again.
pub fn operation_again(alloc: Global, operation: &Operation) -> Result<Operation, Memory>
    ensures { IfOk result (λ made. made ≡ operation.now) }
{
    Ok(match operation {
        Operation::Arithmetic(operator, kind) => Operation::Arithmetic(*operator, *kind),
        Operation::Wrap(wrapping, kind) => Operation::Wrap(*wrapping, *kind),
        Operation::Negate(kind) => Operation::Negate(*kind),
        Operation::Compare(comparison, scalar) => Operation::Compare(*comparison, *scalar),
        Operation::Same(scalar) => Operation::Same(*scalar),
        Operation::Equal(of_type) => Operation::Equal(*of_type),
        Operation::Unequal(of_type) => Operation::Unequal(*of_type),
        Operation::Not => Operation::Not,
        Operation::Assert => Operation::Assert,
        Operation::Concat => Operation::Concat,
        Operation::TextSize => Operation::TextSize,
        Operation::ToText(kind) => Operation::ToText(*kind),
        Operation::MakeTuple => Operation::MakeTuple,
        Operation::MakeOption => Operation::MakeOption,
        Operation::MakeTag(tag) => Operation::MakeTag(bytes_again(alloc, tag)?),
        Operation::MakeArray => Operation::MakeArray,
        Operation::MakeObject(labels) => Operation::MakeObject(labels_again(alloc, labels)?),
        Operation::Project(number) => Operation::Project(*number),
        Operation::Field(label) => Operation::Field(bytes_again(alloc, label)?),
        Operation::Element => Operation::Element,
        Operation::ArraySize => Operation::ArraySize,
        Operation::Method(name) => Operation::Method(bytes_again(alloc, name)?),
        Operation::PrincipalOf => Operation::PrincipalOf,
        Operation::RejectError => Operation::RejectError,
        Operation::Message => Operation::Message,
        Operation::Code => Operation::Code,
        Operation::Trap => Operation::Trap,
        Operation::Fail(text) => Operation::Fail(bytes_again(alloc, text)?),
    })
}
