//! Bounds of type parameters, with type arguments in the place of parameters.
ghost use Rattle.std.specs.Prelude.{◌≡◌, IfOk, true};
ghost use Rattle.mo_types.specs.Sub.{Each};
ghost use Rattle.type_definitions.specs.Tables.{Within};
ghost use Rattle.met_types.specs.States.{Kept};
ghost use Rattle.instance_rules.specs.Instances.{AreBoundsWith, IsBound, IsBoundWith, IsWith, Puts, PutsEach};

use met_types::Types;
use mo_num::{Memory, Sequence};
use std::alloc::Global;
use type_definitions::{Arguments, Numbers};
use type_terms::{Form, TermId};

/// The same numbers once more, in which each is found in constant time.
pub(crate) fn numbers(alloc: Global, list: &[u32]) -> Result<Numbers, Memory>
    ensures { IfOk result (λ made. made ≡ list.now) }
{
    let copied = Vec::from_slice(alloc, list)?;
    Numbers::new(alloc, Sequence::from_vec(copied))
}

/// The bound of a type parameter: Any, where none is written.
fn bound_of(types: &mut Types, parameter: u32) -> Result<TermId, Memory>
    requires { Kept types.old }
    ensures { IfOk result (λ id. Puts types.old (IsBound types.old.listed parameter id) id types.new) }
{
    let written = types.definitions().bound(parameter);
    match written {
        Some(bound) => Ok(bound),
        None => types.intern(Form::Any),
    }
}

/// A type with the arguments in the place of the parameters. Other parameters stay.
pub(crate) fn put_with(
    types: &mut Types,
    arguments: &Arguments<'_>,
    id: TermId,
) -> Result<TermId, Memory>
    requires kept { Kept types.old }
    requires within { Within types.old.forms id }
    requires arguments { Each (Within types.old.forms) arguments.now.arguments.now }
    requires stay { arguments.now.others_stay ≡ true }
    ensures { IfOk result (λ made. Puts types.old (IsWith arguments.now.parameters.now arguments.now.arguments.now id made) made types.new) }
{
    types.put_in(arguments, id)
}

/// The bound of a type parameter, with the arguments in the place of the parameters.
fn put_bound(types: &mut Types, arguments: &Arguments<'_>, parameter: u32) -> Result<TermId, Memory>
    requires kept { Kept types.old }
    requires arguments { Each (Within types.old.forms) arguments.now.arguments.now }
    requires stay { arguments.now.others_stay ≡ true }
    ensures { IfOk result (λ id. Puts types.old (IsBoundWith arguments.now.parameters.now arguments.now.arguments.now types.old.listed parameter id) id types.new) }
{
    let bound = bound_of(types, parameter)?;
    put_with(types, arguments, bound)
}

/// The bounds of these parameters, with the arguments in the place of the parameters.
pub(crate) fn put_bounds(
    types: &mut Types,
    arguments: &Arguments<'_>,
    parameters: &[u32],
) -> Result<Sequence<TermId>, Memory>
    requires kept { Kept types.old }
    requires arguments { Each (Within types.old.forms) arguments.now.arguments.now }
    requires stay { arguments.now.others_stay ≡ true }
    ensures { IfOk result (λ made. PutsEach types.old (AreBoundsWith arguments.now.parameters.now arguments.now.arguments.now types.old.listed parameters.now made) parameters.now made types.new) }
{
    let mut made = Sequence::new(types.terms().allocator());
    for parameter in parameters {
        let bound = put_bound(types, arguments, *parameter)?;
        made.push(bound)?;
    }
    Ok(made)
}
