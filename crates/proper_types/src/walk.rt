//! The walk over written types that asks whether they are as they have to be.
ghost use Rattle.std.specs.Prelude.{◌≡◌, map};
ghost use Rattle.typing_rules.specs.AbstractSyntax as syntax;
ghost use Rattle.typing_rules.specs.AbstractTypes.{type_nodes};
ghost use Rattle.typing_rules.specs.TypeScopes.{type_named};
ghost use Rattle.typing_rules.specs.Types as rules;
ghost use Rattle.abstract_types.specs.TypeView.{type_node};
ghost use Rattle.type_scopes.specs.Scopes.{seen};
ghost use Rattle.proper_types.specs.Passing.{Judges, Ready};
ghost use Rattle.proper_types.specs.Rules.{done, each_part, each_proper, part, proper};

use crate::shareable::{all_shareable, needs_method};
use abstract_types::{TypeField, TypeForm, TypeNode};
use met_types::Types;
use mo_syntax::Sharing as FunctionSharing;
use shareable_types::Sharing;
use type_judgements::Refusal;
use type_scopes::{TypeName, TypeScope};
use typing_rules::Condition;
use written_types::awaited;

/// How many arguments a name has.
fn arity(scope: &TypeScope, name: &[u8]) -> usize
    ensures { result ≡ rules.arity (type_named (seen scope.now) name.now) }
{
    match scope.find(name) {
        Some(TypeName::Definition(_, _, own)) => own,
        Some(TypeName::Parameter(_)) => 0,
        None => 0,
    }
}

// A type of at most so many levels. One of more levels than there are addresses is none that memory holds.
#[cycle(within)]
fn proper_within(
    scope: &TypeScope,
    types: &mut Types,
    sharing: &mut Sharing,
    depth: usize,
    node: &TypeNode,
) -> Result<(), Refusal>
    requires { Ready types.old sharing.old }
    ensures { Judges (proper (seen scope.now) (type_node node.now)) types.old types.new sharing.new done result }
{
    if depth == 0 {
        return Err(Refusal::Memory);
    }
    match node.form.get() {
        TypeForm::Function(called, parameters, of) => function_within(
            scope,
            types,
            sharing,
            depth - 1,
            node.at,
            *called,
            parameters.as_slice(),
            of,
        ),
        TypeForm::Optional(of) => proper_within(scope, types, sharing, depth - 1, of),
        TypeForm::Async(_) => Err(Refusal::False(node.at, Condition::NotShared)),
        TypeForm::Use(name, arguments) => {
            let arguments = arguments.as_slice();
            if arguments.len() == arity(scope, name.as_slice()) {
                each_within(scope, types, sharing, depth - 1, arguments)
            } else {
                Err(Refusal::False(node.at, Condition::TypeArguments))
            }
        }
        TypeForm::Tuple(items) => each_within(scope, types, sharing, depth - 1, items.as_slice()),
        TypeForm::Array(_, of) => proper_within(scope, types, sharing, depth - 1, of),
        TypeForm::Object(fields) => {
            parts_within(scope, types, sharing, depth - 1, false, fields.as_slice())
        }
        TypeForm::Variant(tags) => {
            parts_within(scope, types, sharing, depth - 1, false, tags.as_slice())
        }
        TypeForm::Actor(methods) => {
            parts_within(scope, types, sharing, depth - 1, true, methods.as_slice())
        }
    }
}

/// A function's type. That of a shared function has `async T` as its result.
#[cycle(within)]
fn function_within(
    scope: &TypeScope,
    types: &mut Types,
    sharing: &mut Sharing,
    depth: usize,
    at: u32,
    called: FunctionSharing,
    parameters: &[TypeNode],
    of: &TypeNode,
) -> Result<(), Refusal>
    requires { Ready types.old sharing.old }
    ensures { Judges (proper (seen scope.now) (syntax.node at (syntax.Function called (type_nodes (map type_node parameters.now)) (type_node of.now)))) types.old types.new sharing.new done result }
{
    match called {
        FunctionSharing::Local => {
            each_within(scope, types, sharing, depth, parameters)?;
            proper_within(scope, types, sharing, depth, of)
        }
        _ => match awaited(of) {
            Some(promised) => {
                each_within(scope, types, sharing, depth, parameters)?;
                proper_within(scope, types, sharing, depth, promised)?;
                all_shareable(scope, types, sharing, at, parameters, promised)
            }
            None => Err(Refusal::False(at, Condition::NotShared)),
        },
    }
}

#[cycle(within)]
fn each_within(
    scope: &TypeScope,
    types: &mut Types,
    sharing: &mut Sharing,
    depth: usize,
    nodes: &[TypeNode],
) -> Result<(), Refusal>
    requires { Ready types.old sharing.old }
    ensures { Judges (each_proper (seen scope.now) nodes.now) types.old types.new sharing.new done result }
{
    for node in nodes {
        proper_within(scope, types, sharing, depth, node)?;
    }
    Ok(())
}

/// A field or tag, or a method of an actor type, which is a shared function.
#[cycle(within)]
fn part_within(
    scope: &TypeScope,
    types: &mut Types,
    sharing: &mut Sharing,
    depth: usize,
    of_actor: bool,
    field: &TypeField,
) -> Result<(), Refusal>
    requires { Ready types.old sharing.old }
    ensures { Judges (part (seen scope.now) of_actor field.now) types.old types.new sharing.new done result }
{
    match field {
        TypeField::Field(_, name, of) => {
            proper_within(scope, types, sharing, depth, of)?;
            if of_actor {
                needs_method(scope, types, sharing, name.at, of)
            } else {
                Ok(())
            }
        }
        TypeField::EmptyTag(_) => Ok(()),
    }
}

#[cycle(within)]
fn parts_within(
    scope: &TypeScope,
    types: &mut Types,
    sharing: &mut Sharing,
    depth: usize,
    of_actor: bool,
    fields: &[TypeField],
) -> Result<(), Refusal>
    requires { Ready types.old sharing.old }
    ensures { Judges (each_part (seen scope.now) of_actor fields.now) types.old types.new sharing.new done result }
{
    for field in fields {
        part_within(scope, types, sharing, depth, of_actor, field)?;
    }
    Ok(())
}

/// Whether a written type is as it has to be: names have as many arguments as they have parameters, `async T` stands only as the
/// result of a shared function, whose parameters and T are shareable, and each field of an actor type is a shared function's type
/// (Motoko language manual, sections "Types", "Shareability" and "Actor types"). `False` names the first condition that is false,
/// and its place. It recurses as deep as the type is written, and types have no more levels than the parser lets pass.
pub fn proper(
    scope: &TypeScope,
    types: &mut Types,
    sharing: &mut Sharing,
    node: &TypeNode,
) -> Result<(), Refusal>
    requires { Ready types.old sharing.old }
    ensures { Judges (proper (seen scope.now) (type_node node.now)) types.old types.new sharing.new done result }
{
    proper_within(scope, types, sharing, usize::MAX, node)
}
