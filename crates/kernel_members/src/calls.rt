//! Calls.
ghost use Rattle.std.specs.Prelude.{◌≡◌, IfOk};
ghost use Rattle.typed_tree.specs.declared.action.Action.TheVariants as action;
ghost use Rattle.kernel_members.specs.Accesses.{call_in, callee_at, callee_of};

use kernel_nodes::acts;
use kernel_types::KernelTypes;
use mo_num::{Memory, Sequence};
use mo_syntax::Items;
use mo_types::{Node, Sort, TypeId};
use std::alloc::Global;
use type_terms::TermId;
use typed_tree::{Action, TypedExpression};

fn copy_numbers(alloc: Global, numbers: &[TypeId]) -> Result<Sequence<TypeId>, Memory>
    ensures { IfOk result (λ made. made ≡ numbers.now) }
{
    Ok(Sequence::from_vec(Vec::from_slice(alloc, numbers)?))
}

fn send(alloc: Global, parameters: &[TypeId], results: &[TypeId]) -> Result<Action, Memory>
    ensures { IfOk result (λ made. made ≡ action.Send parameters.now results.now) }
{
    let parameters = copy_numbers(alloc, parameters)?;
    let results = copy_numbers(alloc, results)?;
    Ok(Action::Send(parameters, results))
}

fn callee_at(alloc: Global, head: &Node) -> Result<Action, Memory>
    ensures { IfOk result (λ made. made ≡ callee_at head.now) }
{
    match head {
        Node::Func(sort, parameters, results) => match sort {
            Sort::Local => Ok(Action::Call),
            Sort::Shared => send(alloc, parameters.as_slice(), results.as_slice()),
            Sort::Query => send(alloc, parameters.as_slice(), results.as_slice()),
        },
        _ => Ok(Action::Call),
    }
}

/// How a function of this type is called.
fn callee(alloc: Global, types: &KernelTypes, of: TermId) -> Result<Action, Memory>
    ensures { IfOk result (λ made. made ≡ callee_of types.now of) }
{
    let head = types.members_head(of)?;
    callee_at(alloc, head)
}

/// A call of a function of this type, which is the first operand: Motoko language manual, section "Function calls".
pub fn call(
    alloc: Global,
    types: &KernelTypes,
    kind: TermId,
    of: TermId,
    operands: Items<TypedExpression>,
) -> Result<TypedExpression, Memory>
    ensures { IfOk result (λ made. made ≡ call_in types.now kind of operands) }
{
    let action = callee(alloc, types, of)?;
    acts(alloc, types, kind, action, operands)
}
