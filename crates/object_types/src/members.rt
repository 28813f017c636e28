//! The types of objects and actors by what is written of their fields (Motoko language manual, "Objects", "Actors").
ghost use Rattle.std.specs.Prelude.{◌≡◌, IfOk, OnOk, Some, map};
ghost use Rattle.typing_rules.specs.DeclaredTypes.{declared_fields, member_fields};
ghost use Rattle.typing_rules.specs.Programs.{method_field, method_fields};
ghost use Rattle.typing_rules.specs.Signatures.{async_term, method_sort};
ghost use Rattle.typing_rules.specs.Terms as rules;
ghost use Rattle.met_types.specs.States.{Kept};
ghost use Rattle.type_scopes.specs.Scopes.{seen};
ghost use Rattle.abstract_types.specs.PatternView.{plain_signature};
ghost use Rattle.abstract_types.specs.TypeView.{annotation, type_node};
ghost use Rattle.abstract_tree.specs.TreeView.{declarations, plain_declaration, plain_declaration_form};
ghost use Rattle.written_types.specs.Written.{Wrote};
ghost use Rattle.object_types.specs.Adding.{Adds};
ghost use Rattle.object_types.specs.Joining.{member_before, method_before, method_term, together};

use crate::names::{push_field, push_pattern};
use abstract_tree::{Declaration, DeclarationForm};
use abstract_types::{Signature, TypeNode};
use declared_types::{Otherwise, class_term, function_term, parameter_terms, term_or, written};
use met_types::Types;
use mo_num::{Memory, Sequence};
use mo_types::{Field, Sort};
use type_scopes::TypeScope;
use type_terms::TermId;
use written_kinds::{actor, object, shared, unit};
use written_types::awaited;

/// Adds the field of a declaration that is public.
fn push_declared(
    scope: &mut TypeScope,
    types: &mut Types,
    form: &DeclarationForm<u32>,
    made: &mut Vec<Field<TermId>>,
) -> Result<(), Memory>
    requires { Kept types.old }
    ensures made { OnOk result (Adds types.old types.new (declared_fields (seen scope.old) (plain_declaration_form form.now)) made.old.items made.new.items) }
    ensures scope { OnOk result (scope.new ≡ scope.old) }
{
    match form {
        DeclarationForm::Let(q, _) => push_pattern(scope, types, q, made),
        DeclarationForm::Var(_, name, annotation, _) => {
            let part = term_or(scope, types, annotation, Otherwise::Bottom)?;
            push_field(types, made, name.bytes.as_slice(), true, part)
        }
        DeclarationForm::Func(name, signature, _) => {
            let part = function_term(scope, types, signature)?;
            push_field(types, made, name.bytes.as_slice(), false, part)
        }
        DeclarationForm::Class(name, signature, _) => {
            let part = class_term(scope, types, name, signature)?;
            push_field(types, made, name.bytes.as_slice(), false, part)
        }
        DeclarationForm::Method(_, _, _, _, _) => Ok(()),
        DeclarationForm::System(_, _) => Ok(()),
        DeclarationForm::TypeAlias(_, _, _) => Ok(()),
        DeclarationForm::NamedObject(_, _) => Ok(()),
        DeclarationForm::Evaluate(_) => Ok(()),
    }
}

fn push_member(
    scope: &mut TypeScope,
    types: &mut Types,
    one: &Declaration<u32>,
    made: &mut Vec<Field<TermId>>,
) -> Result<(), Memory>
    requires { Kept types.old }
    ensures made { OnOk result (Adds types.old types.new (member_before (seen scope.old) one.now) made.old.items made.new.items) }
    ensures scope { OnOk result (scope.new ≡ scope.old) }
{
    if one.public {
        push_declared(scope, types, one.form.get(), made)
    } else {
        Ok(())
    }
}

fn push_members(
    scope: &mut TypeScope,
    types: &mut Types,
    list: &[Declaration<u32>],
    made: &mut Vec<Field<TermId>>,
) -> Result<(), Memory>
    requires { Kept types.old }
    ensures made { OnOk result (Adds types.old types.new (together (map (member_before (seen scope.old)) list.now)) made.old.items made.new.items) }
    ensures scope { OnOk result (scope.new ≡ scope.old) }
{
    for one in list {
        push_member(scope, types, one, made)?;
    }
    Ok(())
}

/// The type of an object with these fields, where the types that they define are in scope. Of its fields those are public that are
/// so declared, each with the type that is written at it. The scope is as before, where no memory was wanting.
pub fn object_type(
    scope: &mut TypeScope,
    types: &mut Types,
    list: &[Declaration<u32>],
) -> Result<TermId, Memory>
    requires { Kept types.old }
    ensures made { IfOk result (Wrote types.old types.new (rules.Object (member_fields (seen scope.old) (declarations (map plain_declaration list.now))))) }
    ensures scope { OnOk result (scope.new ≡ scope.old) }
{
    let mut made = Vec::new(types.terms().allocator());
    push_members(scope, types, list, &mut made)?;
    match object(types, Sequence::from_vec(made)) {
        Ok(id) => Ok(id),
        Err(memory) => Err(memory),
    }
}

/// How a public function of an actor is called (Motoko language manual, section "Shared functions").
pub fn method_sort(query: bool) -> Sort
    ensures { result ≡ method_sort query }
{
    if query { Sort::Query } else { Sort::Shared }
}

/// What a public function with this result promises.
fn promised(scope: &TypeScope, types: &mut Types, of: &TypeNode) -> Result<TermId, Memory>
    requires { Kept types.old }
    ensures { IfOk result (Wrote types.old types.new (async_term (seen scope.now) (Some (type_node of.now)))) }
{
    match awaited(of) {
        Some(node) => written(scope, types, node),
        None => unit(types),
    }
}

/// What a public function with this result promises, which is () where none is written (Motoko language manual, section "Shared functions").
///
/// # Errors
///
/// `Memory` where memory lacks.
pub fn async_term(
    scope: &TypeScope,
    types: &mut Types,
    of: &Option<TypeNode>,
) -> Result<TermId, Memory>
    requires { Kept types.old }
    ensures { IfOk result (Wrote types.old types.new (async_term (seen scope.now) (annotation of.now))) }
{
    match of {
        Some(node) => promised(scope, types, node),
        None => unit(types),
    }
}

/// The type of a public function.
fn method_type(
    scope: &TypeScope,
    types: &mut Types,
    query: bool,
    signature: &Signature<u32>,
) -> Result<TermId, Memory>
    requires { Kept types.old }
    ensures { IfOk result (Wrote types.old types.new (method_term (seen scope.now) query (plain_signature signature.now))) }
{
    let sort = method_sort(query);
    let parameters = parameter_terms(scope, types, signature.parameters.as_slice())?;
    let of = async_term(scope, types, &signature.result)?;
    match shared(types, sort, parameters, of) {
        Ok(id) => Ok(id),
        Err(memory) => Err(memory),
    }
}

/// Adds a public function of the actor.
fn push_method(
    scope: &TypeScope,
    types: &mut Types,
    form: &DeclarationForm<u32>,
    made: &mut Vec<Field<TermId>>,
) -> Result<(), Memory>
    requires { Kept types.old }
    ensures { OnOk result (Adds types.old types.new (method_field (seen scope.now) (plain_declaration_form form.now)) made.old.items made.new.items) }
{
    match form {
        DeclarationForm::Method(query, _, name, signature, _) => {
            let part = method_type(scope, types, *query, signature)?;
            push_field(types, made, name.bytes.as_slice(), false, part)
        }
        DeclarationForm::Let(_, _) => Ok(()),
        DeclarationForm::Var(_, _, _, _) => Ok(()),
        DeclarationForm::Func(_, _, _) => Ok(()),
        DeclarationForm::System(_, _) => Ok(()),
        DeclarationForm::TypeAlias(_, _, _) => Ok(()),
        DeclarationForm::Class(_, _, _) => Ok(()),
        DeclarationForm::NamedObject(_, _) => Ok(()),
        DeclarationForm::Evaluate(_) => Ok(()),
    }
}

fn push_methods(
    scope: &TypeScope,
    types: &mut Types,
    list: &[Declaration<u32>],
    made: &mut Vec<Field<TermId>>,
) -> Result<(), Memory>
    requires { Kept types.old }
    ensures { OnOk result (Adds types.old types.new (together (map (method_before (seen scope.now)) list.now)) made.old.items made.new.items) }
{
    for one in list {
        push_method(scope, types, one.form.get(), made)?;
    }
    Ok(())
}

/// The type of an actor with these fields, where the types that they define are in scope: its methods, with the types that are
/// written at them.
pub fn actor_type(
    scope: &TypeScope,
    types: &mut Types,
    list: &[Declaration<u32>],
) -> Result<TermId, Memory>
    requires { Kept types.old }
    ensures { IfOk result (Wrote types.old types.new (rules.Actor (method_fields (seen scope.now) (declarations (map plain_declaration list.now))))) }
{
    let mut made = Vec::new(types.terms().allocator());
    push_methods(scope, types, list, &mut made)?;
    match actor(types, Sequence::from_vec(made)) {
        Ok(id) => Ok(id),
        Err(memory) => Err(memory),
    }
}
