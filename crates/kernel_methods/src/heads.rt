//! The types of the arguments and replies of public functions.
ghost use Rattle.std.specs.Prelude.{◌≡◌, IfOk};
ghost use Rattle.type_definitions.specs.Meanings.{term};
ghost use Rattle.kernel_methods.specs.Shared.{IsShared, parameters_at, parameters_in, results_at, results_in};

use kernel_types::KernelTypes;
use mo_num::{Memory, Sequence};
use mo_types::{Node, TypeId};
use std::alloc::Global;
use type_terms::TermId;

fn copy_numbers(alloc: Global, numbers: &[TypeId]) -> Result<Sequence<TypeId>, Memory>
    ensures { IfOk result (λ made. made ≡ numbers.now) }
{
    Ok(Sequence::from_vec(Vec::from_slice(alloc, numbers)?))
}

fn copy_parameters(alloc: Global, head: &Node) -> Result<Sequence<TypeId>, Memory>
    ensures { IfOk result (λ made. made ≡ parameters_at head.now) }
{
    match head {
        Node::Func(_, parameters, _) => copy_numbers(alloc, parameters.as_slice()),
        _ => Ok(Sequence::new(alloc)),
    }
}

fn copy_results(alloc: Global, head: &Node) -> Result<Sequence<TypeId>, Memory>
    ensures { IfOk result (λ made. made ≡ results_at head.now) }
{
    match head {
        Node::Func(_, _, results) => copy_numbers(alloc, results.as_slice()),
        _ => Ok(Sequence::new(alloc)),
    }
}

/// The types of the arguments of a public function of this type.
pub(crate) fn method_parameters(
    alloc: Global,
    types: &KernelTypes,
    kind: TermId,
) -> Result<Sequence<TypeId>, Memory>
    requires { IsShared (term types.now.forms kind) }
    ensures { IfOk result (λ made. made ≡ parameters_in types.now kind) }
{
    let head = types.head(kind)?;
    copy_parameters(alloc, head)
}

/// The types of the values of its reply: Motoko language manual, section "Shared functions".
pub(crate) fn method_results(
    alloc: Global,
    types: &KernelTypes,
    kind: TermId,
) -> Result<Sequence<TypeId>, Memory>
    requires { IsShared (term types.now.forms kind) }
    ensures { IfOk result (λ made. made ≡ results_in types.now kind) }
{
    let head = types.head(kind)?;
    copy_results(alloc, head)
}
