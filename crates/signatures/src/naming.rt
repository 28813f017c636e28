//! The names that functions, classes and public functions bind in their whole list.
ghost use Rattle.std.specs.Prelude.{◌≡◌, ℕ, Option, OnOk};
ghost use Rattle.typing_rules.specs.AbstractSyntax as syntax;
ghost use Rattle.abstract_types.specs.PatternView.{plain_signature};
ghost use Rattle.abstract_types.specs.TypeView.{named};
ghost use Rattle.type_scopes.specs.Scopes.{seen};
ghost use Rattle.proper_types.specs.Passing.{Ready};
ghost use Rattle.typed_patterns.specs.Binding.{Pushes};
ghost use Rattle.signatures.specs.Naming.{class_within, function_within, no_more, signature_of};

use crate::binding::{bind_function, bind_shared};
use crate::shareable::all_shareable;
use crate::written::{async_result, parameter_types, places_of, result_of};
use abstract_types::{PlacedName, Signature};
use declared_names::push_generics;
use declared_types::class_type;
use met_types::Types;
use proper_types::generics;
use shareable_types::Sharing;
use type_judgements::Refusal;
use type_scopes::TypeScope;
use value_scopes::ValueScope;

// Where the type parameters are in scope.
fn function_within(
    scope: &TypeScope,
    types: &mut Types,
    sharing: &mut Sharing,
    names: &mut ValueScope,
    name: &PlacedName,
    signature: &Signature<u32>,
) -> Result<(), Refusal>
    requires { Ready types.old sharing.old }
    ensures { Pushes (function_within (seen scope.now) (named name.now) (plain_signature signature.now)) types.old types.new sharing.new names.old names.new no_more result }
{
    generics(scope, types, sharing, signature.generics.as_slice())?;
    let parameters = parameter_types(scope, types, sharing, signature.parameters.as_slice())?;
    let of = result_of(scope, types, sharing, &signature.result)?;
    let places = places_of(types.terms().allocator(), signature.generics.as_slice())?;
    bind_function(types, sharing, names, &name.bytes, places, parameters, of)
}

/// Whether the signature of a function is as it has to be: Motoko language manual, section "Function declaration". It binds the
/// name of the function in front of the others. `False` names the first condition that is false, and its place; the names of values
/// and of types are then of no use.
pub fn function_signature(
    scope: &mut TypeScope,
    types: &mut Types,
    sharing: &mut Sharing,
    names: &mut ValueScope,
    name: &PlacedName,
    signature: &Signature<u32>,
) -> Result<(), Refusal>
    requires { Ready types.old sharing.old }
    ensures scope { OnOk result (scope.new ≡ scope.old) }
    ensures judged { (body : syntax.Expression ℕ) → Pushes (signature_of (seen scope.old) (syntax.Func (named name.now) (plain_signature signature.now) body)) types.old types.new sharing.new names.old names.new no_more result }
{
    let len = scope.len();
    push_generics(scope, signature.generics.as_slice())?;
    function_within(scope, types, sharing, names, name, signature)?;
    scope.truncate(len);
    Ok(())
}

// Where the type parameters are in scope.
fn class_within(
    scope: &TypeScope,
    types: &mut Types,
    sharing: &mut Sharing,
    names: &mut ValueScope,
    name: &PlacedName,
    signature: &Signature<u32>,
) -> Result<(), Refusal>
    requires { Ready types.old sharing.old }
    ensures { Pushes (class_within (seen scope.now) (named name.now) (plain_signature signature.now)) types.old types.new sharing.new names.old names.new no_more result }
{
    generics(scope, types, sharing, signature.generics.as_slice())?;
    let parameters = parameter_types(scope, types, sharing, signature.parameters.as_slice())?;
    let of = class_type(scope, types, name)?;
    let places = places_of(types.terms().allocator(), signature.generics.as_slice())?;
    bind_function(types, sharing, names, &name.bytes, places, parameters, of)
}

/// The same of a class: Motoko language manual, section "Class declaration". Its name is that of a function that gives its objects.
pub fn class_signature(
    scope: &mut TypeScope,
    types: &mut Types,
    sharing: &mut Sharing,
    names: &mut ValueScope,
    name: &PlacedName,
    signature: &Signature<u32>,
) -> Result<(), Refusal>
    requires { Ready types.old sharing.old }
    ensures scope { OnOk result (scope.new ≡ scope.old) }
    ensures judged { (fields : syntax.Declarations ℕ) → Pushes (signature_of (seen scope.old) (syntax.Class (named name.now) (plain_signature signature.now) fields)) types.old types.new sharing.new names.old names.new no_more result }
{
    let len = scope.len();
    push_generics(scope, signature.generics.as_slice())?;
    class_within(scope, types, sharing, names, name, signature)?;
    scope.truncate(len);
    Ok(())
}

/// The same of a public function, which has no type parameters, shareable parameters, and a result `async A` of a shareable A:
/// Motoko language manual, section "Shared functions".
pub fn method_signature(
    scope: &TypeScope,
    types: &mut Types,
    sharing: &mut Sharing,
    names: &mut ValueScope,
    query: bool,
    name: &PlacedName,
    signature: &Signature<u32>,
) -> Result<(), Refusal>
    requires { Ready types.old sharing.old }
    ensures { (context : Option (syntax.Pattern ℕ)) (body : syntax.Expression ℕ) → Pushes (signature_of (seen scope.now) (syntax.Method query context (named name.now) (plain_signature signature.now) body)) types.old types.new sharing.new names.old names.new no_more result }
{
    let parameters = parameter_types(scope, types, sharing, signature.parameters.as_slice())?;
    let of = async_result(scope, types, sharing, name.at, &signature.result)?;
    all_shareable(types, sharing, name.at, parameters.as_slice(), of)?;
    bind_shared(types, sharing, names, &name.bytes, query, parameters, of)
}
