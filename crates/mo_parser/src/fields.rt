//! The fields of an actor.

ghost use Rattle.mo_parser_base.specs.Input.{Reads};
ghost use Rattle.mo_parser_programs.specs.Programs as spec;

use crate::functions::shared_function;
use mo_parser_base::{Cursor, Look, Stop, read_semicolons};
use mo_parser_expressions::{read_body, read_declaration, read_expression};
use mo_parser_types::read_annotation;
use mo_syntax::{ActorField, Items, Mark, Name, Node, SharedFunction, Word};
use std::alloc::Global;

#[tactic(auto, unfolding(mo_parser_programs::specs::Programs::system_heading))]
fn system_heading(alloc: Global, tokens: &mut Cursor<'_>) -> Result<(Name, bool), Stop>
    ensures { Reads (spec.system_heading tokens.old) result tokens.new }
{
    tokens.expect_word(Word::Func)?;
    let name = tokens.identifier(alloc)?;
    tokens.expect_mark(Mark::ParenOpen)?;
    tokens.expect_mark(Mark::ParenClose)?;
    let equal_sign = tokens.eat_mark(Mark::EqualSign);
    Ok((name, equal_sign))
}

#[tactic(auto, unfolding(mo_parser_programs::specs::Programs::system_function))]
fn system_function(alloc: Global, tokens: &mut Cursor<'_>) -> Result<ActorField, Stop>
    ensures { Reads (spec.system_function tokens.old) result tokens.new }
{
    let (name, equal_sign) = system_heading(alloc, tokens)?;
    let body = read_body(alloc, tokens, equal_sign)?;
    Ok(ActorField::System(name, equal_sign, body))
}

#[tactic(auto, unfolding(mo_parser_programs::specs::Programs::stable_variable))]
fn stable_variable(
    alloc: Global,
    tokens: &mut Cursor<'_>,
    private: bool,
) -> Result<ActorField, Stop>
    ensures { Reads (spec.stable_variable private tokens.old) result tokens.new }
{
    tokens.expect_word(Word::Var)?;
    let name = tokens.identifier(alloc)?;
    let kind = read_annotation(alloc, tokens)?;
    tokens.expect_mark(Mark::EqualSign)?;
    let a = read_expression(alloc, tokens)?;
    Ok(ActorField::Stable(private, name, kind, a))
}

#[tactic(auto, unfolding(mo_parser_programs::specs::Programs::declared))]
fn declared(alloc: Global, tokens: &mut Cursor<'_>, private: bool) -> Result<ActorField, Stop>
    ensures { Reads (spec.declared private tokens.old) result tokens.new }
{
    Ok(ActorField::Declared(private, read_declaration(alloc, tokens)?))
}

/// A declaration or a stable variable.
#[tactic(auto, unfolding(mo_parser_programs::specs::Programs::state))]
fn state(alloc: Global, tokens: &mut Cursor<'_>, private: bool) -> Result<ActorField, Stop>
    ensures { Reads (spec.state private tokens.old) result tokens.new }
{
    match tokens.peek() {
        Look::Reserved(Word::Stable) => {
            tokens.skip();
            stable_variable(alloc, tokens, private)
        }
        _ => declared(alloc, tokens, private),
    }
}

fn function_node(alloc: Global, tokens: &mut Cursor<'_>) -> Result<Node<SharedFunction>, Stop>
    ensures { Reads (spec.shared_function tokens.old) result tokens.new }
{
    let start = tokens.start();
    let made = shared_function(alloc, tokens)?;
    Ok(tokens.node(alloc, start, made)?)
}

#[tactic(auto, unfolding(mo_parser_programs::specs::Programs::a_field))]
fn field_layer(alloc: Global, tokens: &mut Cursor<'_>) -> Result<ActorField, Stop>
    ensures { Reads (spec.a_field tokens.old) result tokens.new }
{
    match tokens.peek() {
        Look::Reserved(Word::Public) => {
            tokens.skip();
            Ok(ActorField::Public(function_node(alloc, tokens)?))
        }
        Look::Reserved(Word::System) => {
            tokens.skip();
            system_function(alloc, tokens)
        }
        Look::Reserved(Word::Private) => {
            tokens.skip();
            state(alloc, tokens, true)
        }
        _ => state(alloc, tokens, false),
    }
}

fn a_field(alloc: Global, tokens: &mut Cursor<'_>) -> Result<Node<ActorField>, Stop>
    ensures { Reads (spec.a_field tokens.old) result tokens.new }
{
    let start = tokens.start();
    let made = field_layer(alloc, tokens)?;
    Ok(tokens.node(alloc, start, made)?)
}

/// The fields up to the closing brace, which is taken, and whether a `;` ends them.
#[tactic(auto, unfolding(mo_parser_programs::specs::Programs::actor_fields))]
pub(crate) fn actor_fields(
    alloc: Global,
    tokens: &mut Cursor<'_>,
) -> Result<(Items<Node<ActorField>>, bool), Stop>
    ensures { Reads (spec.actor_fields tokens.old) result tokens.new }
{
    read_semicolons(alloc, tokens, |tokens| a_field(alloc, tokens))
}
