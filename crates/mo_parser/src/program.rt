//! Programs.

ghost use Rattle.mo_parser_base.specs.Input.{Reads};
ghost use Rattle.mo_parser_programs.specs.Programs as spec;
ghost use Rattle.std.specs.Prelude.{◌≡◌};

use crate::fields::actor_fields;
use mo_parser_base::{Cursor, Look, Stop};
use mo_syntax::{Actor, Import, Items, Mark, Name, Node, Tree, Word};
use std::alloc::Global;

fn begins_import(look: Look) -> bool
    ensures { result ≡ spec.begins_import look }
{
    match look {
        Look::Reserved(Word::Import) => true,
        _ => false,
    }
}

#[tactic(auto, unfolding(mo_parser_programs::specs::Programs::one_import))]
fn one_import(alloc: Global, tokens: &mut Cursor<'_>) -> Result<Node<Import>, Stop>
    ensures { Reads (spec.one_import tokens.old) result tokens.new }
{
    let start = tokens.start();
    tokens.expect_word(Word::Import)?;
    let name = tokens.identifier(alloc)?;
    let equal_sign = tokens.eat_mark(Mark::EqualSign);
    let path = tokens.text(alloc)?;
    tokens.expect_mark(Mark::Semicolon)?;
    let made = Import {
        name,
        equal_sign,
        path,
    };
    Ok(tokens.node(alloc, start, made)?)
}

#[tactic(auto, unfolding(mo_parser_programs::specs::Programs::imports))]
fn imports(alloc: Global, tokens: &mut Cursor<'_>) -> Result<Items<Node<Import>>, Stop>
    ensures { Reads (spec.imports tokens.old) result tokens.new }
{
    let mut found = Items::new(alloc);
    for _turn in 0..tokens.left() {
        if !begins_import(tokens.peek()) {
            return Ok(found);
        }
        found.push(one_import(alloc, tokens)?)?;
    }
    Ok(found)
}

#[tactic(auto, unfolding(mo_parser_programs::specs::Programs::a_name))]
fn a_name(alloc: Global, tokens: &mut Cursor<'_>) -> Result<Option<Name>, Stop>
    ensures { Reads (spec.a_name tokens.old) result tokens.new }
{
    match tokens.peek() {
        Look::Identifier => Ok(Some(tokens.identifier(alloc)?)),
        _ => Ok(None),
    }
}

#[tactic(auto, unfolding(mo_parser_programs::specs::Programs::actor))]
fn actor(alloc: Global, tokens: &mut Cursor<'_>) -> Result<Node<Actor>, Stop>
    ensures { Reads (spec.actor tokens.old) result tokens.new }
{
    let start = tokens.start();
    tokens.expect_word(Word::Actor)?;
    let name = a_name(alloc, tokens)?;
    let equal_sign = tokens.eat_mark(Mark::EqualSign);
    tokens.expect_mark(Mark::BraceOpen)?;
    let (fields, semicolon) = actor_fields(alloc, tokens)?;
    let made = Actor {
        name,
        equal_sign,
        fields,
        semicolon,
    };
    Ok(tokens.node(alloc, start, made)?)
}

#[tactic(auto, unfolding(mo_parser_programs::specs::Programs::tree))]
fn tree(alloc: Global, tokens: &mut Cursor<'_>) -> Result<Tree, Stop>
    ensures { Reads (spec.tree tokens.old) result tokens.new }
{
    let imports = imports(alloc, tokens)?;
    let actor = actor(alloc, tokens)?;
    let semicolon = tokens.eat_mark(Mark::Semicolon);
    Ok(Tree {
        imports,
        actor,
        semicolon,
    })
}

/// A program that is all of the tokens.
#[tactic(auto, unfolding(mo_parser_programs::specs::Programs::program))]
pub(crate) fn program(alloc: Global, tokens: &mut Cursor<'_>) -> Result<Tree, Stop>
    ensures { Reads (spec.program tokens.old) result tokens.new }
{
    let made = tree(alloc, tokens)?;
    if tokens.left() != 0 {
        return Err(Stop::Refused);
    }
    Ok(made)
}
