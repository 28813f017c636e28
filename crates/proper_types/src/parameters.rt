//! Type parameters.
ghost use Rattle.std.specs.Prelude.{◌∷◌, [], map};
ghost use Rattle.abstract_types.specs.TypeView.{parameter};
ghost use Rattle.type_scopes.specs.Scopes.{seen};
ghost use Rattle.proper_types.specs.Passing.{Judges, Ready};
ghost use Rattle.proper_types.specs.Rules.{bound_ends, done, generics, is_met, stands};

use crate::reading::reads;
use abstract_types::TypeParameter;
use definition_rules::ends;
use met_types::Types;
use shareable_types::Sharing;
use type_judgements::{Refusal, meets};
use type_scopes::TypeScope;
use type_terms::Form;
use typing_rules::Condition;

/// The condition that the bounds of a type parameter lead to a type that is no type parameter.
fn bound_ends(types: &mut Types, sharing: &Sharing, at: u32) -> Result<(), Refusal>
    requires { Ready types.old sharing.now }
    ensures { Judges (bound_ends at) types.old types.new sharing.now done result }
{
    if ends(types, at)? {
        Ok(())
    } else {
        Err(Refusal::False(at, Condition::BadDefinition))
    }
}

/// A type parameter is a type of the program.
fn is_met(types: &mut Types, sharing: &Sharing, at: u32) -> Result<(), Refusal>
    requires { Ready types.old sharing.now }
    ensures { Judges (is_met at) types.old types.new sharing.now done result }
{
    let parameter = types.intern(Form::Parameter(at))?;
    meets(types, parameter)
}

/// A type parameter whose bound is read.
fn stands(types: &mut Types, sharing: &Sharing, at: u32) -> Result<(), Refusal>
    requires { Ready types.old sharing.now }
    ensures { Judges (stands at) types.old types.new sharing.now done result }
{
    bound_ends(types, sharing, at)?;
    is_met(types, sharing, at)
}

/// One type parameter.
fn parameter_stands(
    scope: &TypeScope,
    types: &mut Types,
    sharing: &mut Sharing,
    one: &TypeParameter,
) -> Result<(), Refusal>
    requires { Ready types.old sharing.old }
    ensures { Judges (generics (seen scope.now) (parameter one.now ∷ [])) types.old types.new sharing.new done result }
{
    match &one.bound {
        Some(bound) => {
            reads(scope, types, sharing, bound)?;
            stands(types, sharing, one.name.at)
        }
        None => stands(types, sharing, one.name.at),
    }
}

/// Whether type parameters are as they have to be: Motoko language manual, section "Type parameters". Their bounds are read in a
/// scope that has all of them. Each is a type of the program, used or not.
pub fn generics(
    scope: &TypeScope,
    types: &mut Types,
    sharing: &mut Sharing,
    parameters: &[TypeParameter],
) -> Result<(), Refusal>
    requires { Ready types.old sharing.old }
    ensures { Judges (generics (seen scope.now) (map parameter parameters.now)) types.old types.new sharing.new done result }
{
    for one in parameters {
        parameter_stands(scope, types, sharing, one)?;
    }
    Ok(())
}
