//! The tokens of a program.
ghost use Rattle.std.specs.Prelude.{◌≡◌, ◌++◌, ◌∷◌, [], Some, None, OnOk, IfOk, map, option_map};
ghost use Rattle.std.specs.List.{flat_map};
ghost use Rattle.mo_syntax.specs.Writing.{braces, marked, optional, parens, semicolons, separated};
ghost use Rattle.mo_syntax.specs.TypeGrammar.{type_tokens};
ghost use Rattle.mo_syntax.specs.PatternGrammar.{parameters_tokens};
ghost use Rattle.mo_syntax.specs.ExpressionGrammar.{signature};
ghost use Rattle.mo_syntax.specs.ProgramGrammar.{tree_tokens, import_tokens, context_tokens, shared_tokens, prefix_tokens, shared_function_tokens, actor_field_tokens, name_tokens, actor_tokens};
ghost use Rattle.mo_syntax.specs.declared.token.TokenKind.{TokenKind};
ghost use Rattle.mo_syntax.specs.declared.mark.Mark.{Mark};
ghost use Rattle.mo_syntax.specs.declared.word.Word.{Word};

use crate::expression_writing::{put_declaration, put_expression};
use crate::leaves::{put_mark, put_mark_if, put_name, put_text, put_word, put_word_if};
use crate::pattern_writing::{put_parameters, put_pattern, put_pattern_fields};
use crate::type_writing::{put_annotation, put_type};
use mo_num::Memory;
use mo_syntax::{
    Actor, ActorField, Context, Import, Kinds, Mark, Name, Node, SharedFunction, SharedPrefix,
    SharedSort, Text, Tree, Word,
};
use std::alloc::Global;

/// The tree's own writing.
pub fn tokens(alloc: Global, tree: &Tree) -> Result<Kinds, Memory>
    ensures { IfOk result (λ written. written ≡ tree_tokens tree.now) }
{
    let mut out = Kinds::new(alloc);
    put_tree(alloc, tree, &mut out)?;
    Ok(out)
}

#[tactic(auto, unfolding(mo_syntax::specs::ProgramGrammar::tree_tokens))]
fn put_tree(alloc: Global, tree: &Tree, out: &mut Kinds) -> Result<(), Memory>
    ensures { OnOk result (out.new ≡ out.old ++ tree_tokens tree.now) }
{
    put_imports(alloc, tree.imports.as_slice(), out)?;
    put_actor(alloc, tree.actor.get(), out)?;
    put_mark_if(out, tree.semicolon, Mark::Semicolon)
}

fn put_imports(alloc: Global, imports: &[Node<Import>], out: &mut Kinds) -> Result<(), Memory>
    ensures { OnOk result (out.new ≡ out.old ++ flat_map import_tokens imports.now) }
{
    for one in imports {
        put_import(alloc, one.get(), out)?;
    }
    Ok(())
}

fn put_import(alloc: Global, import: &Import, out: &mut Kinds) -> Result<(), Memory>
    ensures { OnOk result (out.new ≡ out.old ++ import_tokens import.now) }
{
    put_word(out, Word::Import)?;
    put_name(alloc, out, &import.name)?;
    put_mark_if(out, import.equal_sign, Mark::EqualSign)?;
    put_path(alloc, &import.path, out)
}

// A text and a `;`.
fn put_path(alloc: Global, path: &Text, out: &mut Kinds) -> Result<(), Memory>
    ensures { OnOk result (out.new ≡ out.old ++ TokenKind.Text path.now ∷ TokenKind.Mark Mark.Semicolon ∷ []) }
{
    put_text(alloc, out, path)?;
    put_mark(out, Mark::Semicolon)
}

fn put_actor(alloc: Global, actor: &Actor, out: &mut Kinds) -> Result<(), Memory>
    ensures { OnOk result (out.new ≡ out.old ++ actor_tokens actor.now) }
{
    put_word(out, Word::Actor)?;
    put_optional_name(alloc, &actor.name, out)?;
    put_mark_if(out, actor.equal_sign, Mark::EqualSign)?;
    put_body(alloc, actor, out)
}

fn put_optional_name(alloc: Global, name: &Option<Name>, out: &mut Kinds) -> Result<(), Memory>
    ensures { OnOk result (out.new ≡ out.old ++ name_tokens name.now) }
{
    match name {
        None => Ok(()),
        Some(name) => put_name(alloc, out, name),
    }
}

// The fields of the actor in `{ }`.
fn put_body(alloc: Global, actor: &Actor, out: &mut Kinds) -> Result<(), Memory>
    ensures { OnOk result (out.new ≡ out.old ++ braces (semicolons (map actor_field_tokens actor.now.fields) actor.now.semicolon)) }
{
    put_mark(out, Mark::BraceOpen)?;
    put_actor_fields(alloc, actor.fields.as_slice(), out)?;
    put_mark_if(out, actor.semicolon, Mark::Semicolon)?;
    put_mark(out, Mark::BraceClose)
}

fn put_actor_fields(
    alloc: Global,
    fields: &[Node<ActorField>],
    out: &mut Kinds,
) -> Result<(), Memory>
    ensures { OnOk result (out.new ≡ out.old ++ separated (TokenKind.Mark Mark.Semicolon) (map actor_field_tokens fields.now)) }
{
    let [first, others @ ..] = fields else {
        return Ok(());
    };
    put_actor_field(alloc, first.get(), out)?;
    for one in others {
        put_mark(out, Mark::Semicolon)?;
        put_actor_field(alloc, one.get(), out)?;
    }
    Ok(())
}

fn put_actor_field(alloc: Global, field: &ActorField, out: &mut Kinds) -> Result<(), Memory>
    ensures { OnOk result (out.new ≡ out.old ++ actor_field_tokens field.now) }
{
    match field {
        ActorField::Public(function) => {
            put_word(out, Word::Public)?;
            put_shared_function(alloc, function.get(), out)
        }
        ActorField::System(name, equal_sign, body) => {
            put_system(alloc, name, *equal_sign, out)?;
            put_expression(alloc, body.get(), out)
        }
        ActorField::Declared(private, declaration) => {
            put_word_if(out, *private, Word::Private)?;
            put_declaration(alloc, declaration.get(), out)
        }
        ActorField::Stable(private, name, kind, a) => {
            put_word_if(out, *private, Word::Private)?;
            put_stable(alloc, name, out)?;
            put_annotation(alloc, kind, out)?;
            put_mark(out, Mark::EqualSign)?;
            put_expression(alloc, a.get(), out)
        }
    }
}

// `system func`, a name and `( )`, and the `=` before a body.
fn put_system(alloc: Global, name: &Name, equal_sign: bool, out: &mut Kinds) -> Result<(), Memory>
    ensures { OnOk result (out.new ≡ out.old ++ TokenKind.Reserved Word.System ∷ TokenKind.Reserved Word.Func ∷ TokenKind.Identifier name.now ∷ signature (parens []) None equal_sign) }
{
    put_word(out, Word::System)?;
    put_word(out, Word::Func)?;
    put_name(alloc, out, name)?;
    put_no_parameters(equal_sign, out)
}

fn put_no_parameters(equal_sign: bool, out: &mut Kinds) -> Result<(), Memory>
    ensures { OnOk result (out.new ≡ out.old ++ signature (parens []) None equal_sign) }
{
    put_mark(out, Mark::ParenOpen)?;
    put_mark(out, Mark::ParenClose)?;
    put_mark_if(out, equal_sign, Mark::EqualSign)
}

// `stable var` and a name.
fn put_stable(alloc: Global, name: &Name, out: &mut Kinds) -> Result<(), Memory>
    ensures { OnOk result (out.new ≡ out.old ++ TokenKind.Reserved Word.Stable ∷ TokenKind.Reserved Word.Var ∷ TokenKind.Identifier name.now ∷ []) }
{
    put_word(out, Word::Stable)?;
    put_word(out, Word::Var)?;
    put_name(alloc, out, name)
}

fn put_shared_function(
    alloc: Global,
    function: &SharedFunction,
    out: &mut Kinds,
) -> Result<(), Memory>
    ensures { OnOk result (out.new ≡ out.old ++ shared_function_tokens function.now) }
{
    put_prefix(alloc, &function.prefix, out)?;
    put_heading(alloc, function, out)?;
    put_expression(alloc, function.body.get(), out)
}

// `func` and all that stands before the body.
fn put_heading(alloc: Global, function: &SharedFunction, out: &mut Kinds) -> Result<(), Memory>
    ensures { OnOk result (out.new ≡ out.old ++ TokenKind.Reserved Word.Func ∷ TokenKind.Identifier function.now.name ∷ signature (parameters_tokens function.now.parameters) (Some (type_tokens function.now.result)) function.now.equal_sign) }
{
    put_word(out, Word::Func)?;
    put_name(alloc, out, &function.name)?;
    put_parameters(alloc, &function.parameters, out)?;
    put_result(alloc, function, out)
}

fn put_result(alloc: Global, function: &SharedFunction, out: &mut Kinds) -> Result<(), Memory>
    ensures { OnOk result (out.new ≡ out.old ++ TokenKind.Mark Mark.Colon ∷ type_tokens function.now.result ++ marked function.now.equal_sign (TokenKind.Mark Mark.EqualSign)) }
{
    put_mark(out, Mark::Colon)?;
    put_type(alloc, function.result.get(), out)?;
    put_mark_if(out, function.equal_sign, Mark::EqualSign)
}

fn put_prefix(alloc: Global, prefix: &Option<SharedPrefix>, out: &mut Kinds) -> Result<(), Memory>
    ensures { OnOk result (out.new ≡ out.old ++ optional (option_map prefix_tokens prefix.now)) }
{
    match prefix {
        None => Ok(()),
        Some(prefix) => {
            put_sort(prefix.sort, out)?;
            put_context(alloc, &prefix.context, out)
        }
    }
}

fn put_sort(sort: SharedSort, out: &mut Kinds) -> Result<(), Memory>
    ensures { OnOk result (out.new ≡ out.old ++ shared_tokens sort) }
{
    match sort {
        SharedSort::Shared => put_word(out, Word::Shared),
        SharedSort::SharedQuery => {
            put_word(out, Word::Shared)?;
            put_word(out, Word::Query)
        }
        SharedSort::Query => put_word(out, Word::Query),
    }
}

fn put_context(alloc: Global, context: &Option<Context>, out: &mut Kinds) -> Result<(), Memory>
    ensures { OnOk result (out.new ≡ out.old ++ optional (option_map context_tokens context.now)) }
{
    match context {
        None => Ok(()),
        Some(Context::Parenthesized(p)) => {
            put_mark(out, Mark::ParenOpen)?;
            put_pattern(alloc, p.get(), out)?;
            put_mark(out, Mark::ParenClose)
        }
        Some(Context::Object(fields, last)) => {
            put_mark(out, Mark::BraceOpen)?;
            put_pattern_fields(alloc, fields.as_slice(), *last, out)?;
            put_mark(out, Mark::BraceClose)
        }
    }
}
