//! Members.
ghost use Rattle.std.specs.Prelude.{◌≡◌, ◌∷◌, [], IfOk};
ghost use Rattle.mo_values.specs.declared.operation.Operation.TheVariants as op;
ghost use Rattle.typed_tree.specs.declared.action.Action.TheVariants as action;
ghost use Rattle.desugaring.specs.Nodes as nodes;
ghost use Rattle.kernel_nodes.specs.Made.{acts_at, operates_at};
ghost use Rattle.kernel_members.specs.Accesses.{access_at, accessed_in, field_in, member_in};

use crate::fields::is_var;
use kernel_nodes::{acts, held, one, operates};
use kernel_types::KernelTypes;
use mo_num::{Bytes, Memory};
use mo_types::Node;
use mo_values::Operation;
use std::alloc::Global;
use type_terms::TermId;
use typed_tree::{Action, Member, TypedExpression};

/// What `a.x` is.
#[derive(Clone, Copy)]
pub enum Access {
    /// A field of an object, which is a `var` field or not.
    Field(bool),
    /// A method of an actor.
    Method,
    /// A built-in function of an array or text.
    BuiltIn(Member),
}

fn array_method(name: &[u8]) -> Member
    ensures { result ≡ nodes.array_method name.now }
{
    if name == b"size".as_slice() {
        return Member::ArraySize;
    }
    if name == b"vals".as_slice() {
        return Member::ArrayVals;
    }
    Member::ArrayKeys
}

fn text_method(name: &[u8]) -> Member
    ensures { result ≡ nodes.text_method name.now }
{
    if name == b"size".as_slice() {
        return Member::TextSize;
    }
    Member::TextChars
}

fn access_at(head: &Node, name: &[u8]) -> Access
    ensures { result ≡ access_at name.now head.now }
{
    match head {
        Node::Object(fields) => Access::Field(is_var(fields.as_slice(), name)),
        Node::Actor(_) => Access::Method,
        Node::Text => Access::BuiltIn(text_method(name)),
        _ => Access::BuiltIn(array_method(name)),
    }
}

/// A field of an object; of a `var` field it is the cell: Motoko language manual, section "Object projection (Member access)".
pub fn field(
    alloc: Global,
    types: &KernelTypes,
    kind: TermId,
    name: &[u8],
    a: TypedExpression,
) -> Result<TypedExpression, Memory>
    ensures { IfOk result (λ made. made ≡ operates_at types.now kind (op.Field name.now) (a ∷ [])) }
{
    let label = Bytes::from_slice(alloc, name)?;
    let operands = one(alloc, a)?;
    operates(alloc, types, kind, Operation::Field(label), operands)
}

fn method(
    alloc: Global,
    types: &KernelTypes,
    kind: TermId,
    name: &[u8],
    a: TypedExpression,
) -> Result<TypedExpression, Memory>
    ensures { IfOk result (λ made. made ≡ operates_at types.now kind (op.Method name.now) (a ∷ [])) }
{
    let label = Bytes::from_slice(alloc, name)?;
    let operands = one(alloc, a)?;
    operates(alloc, types, kind, Operation::Method(label), operands)
}

fn built_in(
    alloc: Global,
    types: &KernelTypes,
    kind: TermId,
    member: Member,
    a: TypedExpression,
) -> Result<TypedExpression, Memory>
    ensures { IfOk result (λ made. made ≡ acts_at types.now kind (action.BuiltIn member) (a ∷ [])) }
{
    let operands = one(alloc, a)?;
    acts(alloc, types, kind, Action::BuiltIn(member), operands)
}

fn read_field(
    alloc: Global,
    types: &KernelTypes,
    kind: TermId,
    name: &[u8],
    mutable: bool,
    a: TypedExpression,
) -> Result<TypedExpression, Memory>
    ensures { IfOk result (λ made. made ≡ field_in types.now kind name.now mutable a) }
{
    let value = field(alloc, types, kind, name, a)?;
    held(alloc, types, kind, mutable, value)
}

fn accessed(
    alloc: Global,
    types: &KernelTypes,
    kind: TermId,
    name: &[u8],
    access: Access,
    a: TypedExpression,
) -> Result<TypedExpression, Memory>
    ensures { IfOk result (λ made. made ≡ accessed_in types.now kind name.now access a) }
{
    match access {
        Access::Field(mutable) => read_field(alloc, types, kind, name, mutable, a),
        Access::Method => method(alloc, types, kind, name, a),
        Access::BuiltIn(member) => built_in(alloc, types, kind, member, a),
    }
}

/// `a.x`, by the type of a; a `var` field is read: Motoko language manual, section "Object projection (Member access)".
pub fn member(
    alloc: Global,
    types: &KernelTypes,
    kind: TermId,
    name: &[u8],
    of: TermId,
    a: TypedExpression,
) -> Result<TypedExpression, Memory>
    ensures { IfOk result (λ made. made ≡ member_in types.now kind name.now of a) }
{
    let head = types.members_head(of)?;
    let access = access_at(head, name);
    accessed(alloc, types, kind, name, access, a)
}
