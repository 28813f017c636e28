//! Elements of arrays.
ghost use Rattle.std.specs.Prelude.{◌≡◌, ◌∷◌, [], IfOk};
ghost use Rattle.mo_values.specs.declared.operation.Operation.TheVariants as op;
ghost use Rattle.kernel_nodes.specs.Made.{operates_at};
ghost use Rattle.kernel_members.specs.Accesses.{element_at, element_in, element_number_of, is_mutable_at};

use kernel_nodes::{held, operates, two};
use kernel_types::KernelTypes;
use mo_num::Memory;
use mo_types::{Node, TypeId};
use mo_values::Operation;
use std::alloc::Global;
use type_terms::TermId;
use typed_tree::TypedExpression;

fn is_mutable(head: &Node) -> bool
    ensures { result ≡ is_mutable_at head.now }
{
    match head {
        Node::MutArray(_) => true,
        _ => false,
    }
}

fn element_at(head: &Node) -> Option<TypeId>
    ensures { result ≡ element_at head.now }
{
    match head {
        Node::Array(part) => Some(*part),
        Node::MutArray(part) => Some(*part),
        _ => None,
    }
}

/// `a[i]`; of a mutable array it is the cell.
pub fn element_place(
    alloc: Global,
    types: &KernelTypes,
    kind: TermId,
    a: TypedExpression,
    i: TypedExpression,
) -> Result<TypedExpression, Memory>
    ensures { IfOk result (λ made. made ≡ operates_at types.now kind op.Element (a ∷ i ∷ [])) }
{
    let operands = two(alloc, a, i)?;
    operates(alloc, types, kind, Operation::Element, operands)
}

/// `a[i]`, by the type of a; an element of a mutable array is read: Motoko language manual, section "Array indexing".
pub fn element(
    alloc: Global,
    types: &KernelTypes,
    kind: TermId,
    of: TermId,
    a: TypedExpression,
    i: TypedExpression,
) -> Result<TypedExpression, Memory>
    ensures { IfOk result (λ made. made ≡ element_in types.now kind of a i) }
{
    let head = types.members_head(of)?;
    let mutable = is_mutable(head);
    let value = element_place(alloc, types, kind, a, i)?;
    held(alloc, types, kind, mutable, value)
}

/// The number of the type of an array's elements.
pub fn element_number(types: &KernelTypes, kind: TermId) -> Result<TypeId, Memory>
    ensures { IfOk result (λ id. id ≡ element_number_of types.now kind) }
{
    let head = types.head(kind)?;
    match element_at(head) {
        Some(part) => Ok(part),
        // This never comes: only an array has cells of its elements.
        None => Err(Memory),
    }
}
