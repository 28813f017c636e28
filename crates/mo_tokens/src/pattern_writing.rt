//! The tokens of a pattern.
ghost use Rattle.std.specs.Prelude.{◌≡◌, ◌++◌, ◌∷◌, [], OnOk, map, option_map};
ghost use Rattle.mo_syntax.specs.Writing.{commas, semicolons, separated};
ghost use Rattle.mo_syntax.specs.TypeGrammar.{type_tokens};
ghost use Rattle.mo_syntax.specs.ExpressionGrammar.{signature};
ghost use Rattle.mo_syntax.specs.PatternGrammar.{pattern_tokens, pattern_field_tokens, parameters_tokens};
ghost use Rattle.mo_syntax.specs.declared.token.TokenKind.{TokenKind};
ghost use Rattle.mo_syntax.specs.declared.mark.Mark.{Mark};

use crate::leaves::{put_literal, put_mark, put_mark_if, put_name, put_word};
use crate::type_writing::{put_annotation, put_type};
use mo_num::Memory;
use mo_syntax::{Kinds, Mark, Node, Parameters, Pattern, PatternField, TypeExpression, Word};
use std::alloc::Global;

#[cycle(put_pattern)]
#[tactic(auto, unfolding(mo_syntax::specs::PatternGrammar::pattern_tokens, mo_syntax::specs::PatternGrammar::pattern_field_tokens))]
pub(crate) fn put_pattern(alloc: Global, p: &Pattern, out: &mut Kinds) -> Result<(), Memory>
    ensures { OnOk result (out.new ≡ out.old ++ pattern_tokens p.now) }
{
    match p {
        Pattern::Annotated(p, a) => {
            put_pattern(alloc, p.get(), out)?;
            put_mark(out, Mark::Colon)?;
            put_type(alloc, a.get(), out)
        }
        Pattern::Alternative(p, q) => {
            put_pattern(alloc, p.get(), out)?;
            put_word(out, Word::Or)?;
            put_pattern(alloc, q.get(), out)
        }
        Pattern::Optional(p) => {
            put_mark(out, Mark::Question)?;
            put_pattern(alloc, p.get(), out)
        }
        Pattern::Tagged(name, payload) => {
            put_mark(out, Mark::Tag)?;
            put_name(alloc, out, name)?;
            match payload {
                None => Ok(()),
                Some(p) => put_pattern(alloc, p.get(), out),
            }
        }
        Pattern::Variable(name) => put_name(alloc, out, name),
        Pattern::Wildcard => put_mark(out, Mark::Underscore),
        Pattern::Constant(minus, literal) => {
            put_mark_if(out, *minus, Mark::Minus)?;
            put_literal(alloc, literal, out)
        }
        Pattern::Parenthesized(patterns) => {
            put_mark(out, Mark::ParenOpen)?;
            put_patterns(alloc, patterns.as_slice(), out)?;
            put_mark(out, Mark::ParenClose)
        }
        Pattern::Object(fields, last) => {
            put_mark(out, Mark::BraceOpen)?;
            put_pattern_fields(alloc, fields.as_slice(), *last, out)?;
            put_mark(out, Mark::BraceClose)
        }
    }
}

#[cycle(put_pattern)]
fn put_patterns(alloc: Global, patterns: &[Node<Pattern>], out: &mut Kinds) -> Result<(), Memory>
    ensures { OnOk result (out.new ≡ out.old ++ commas (map pattern_tokens patterns.now)) }
{
    let [first, others @ ..] = patterns else {
        return Ok(());
    };
    put_pattern(alloc, first.get(), out)?;
    for one in others {
        put_mark(out, Mark::Comma)?;
        put_pattern(alloc, one.get(), out)?;
    }
    Ok(())
}

#[cycle(put_pattern)]
pub(crate) fn put_pattern_fields(
    alloc: Global,
    fields: &[Node<PatternField>],
    last: bool,
    out: &mut Kinds,
) -> Result<(), Memory>
    ensures { OnOk result (out.new ≡ out.old ++ semicolons (map pattern_field_tokens fields.now) last) }
{
    put_each_pattern_field(alloc, fields, out)?;
    put_mark_if(out, last, Mark::Semicolon)
}

#[cycle(put_pattern)]
fn put_each_pattern_field(
    alloc: Global,
    fields: &[Node<PatternField>],
    out: &mut Kinds,
) -> Result<(), Memory>
    ensures { OnOk result (out.new ≡ out.old ++ separated (TokenKind.Mark Mark.Semicolon) (map pattern_field_tokens fields.now)) }
{
    let [first, others @ ..] = fields else {
        return Ok(());
    };
    put_pattern_field(alloc, first.get(), out)?;
    for one in others {
        put_mark(out, Mark::Semicolon)?;
        put_pattern_field(alloc, one.get(), out)?;
    }
    Ok(())
}

#[cycle(put_pattern)]
#[tactic(auto, unfolding(mo_syntax::specs::PatternGrammar::pattern_tokens, mo_syntax::specs::PatternGrammar::pattern_field_tokens))]
fn put_pattern_field(alloc: Global, field: &PatternField, out: &mut Kinds) -> Result<(), Memory>
    ensures { OnOk result (out.new ≡ out.old ++ pattern_field_tokens field.now) }
{
    put_name(alloc, out, &field.name)?;
    match &field.pattern {
        None => Ok(()),
        Some(p) => {
            put_mark(out, Mark::EqualSign)?;
            put_pattern(alloc, p.get(), out)
        }
    }
}

pub(crate) fn put_parameters(
    alloc: Global,
    parameters: &Parameters,
    out: &mut Kinds,
) -> Result<(), Memory>
    ensures { OnOk result (out.new ≡ out.old ++ parameters_tokens parameters.now) }
{
    match parameters {
        Parameters::List(patterns) => {
            put_mark(out, Mark::ParenOpen)?;
            put_patterns(alloc, patterns.as_slice(), out)?;
            put_mark(out, Mark::ParenClose)
        }
        Parameters::Single(name) => put_name(alloc, out, name),
    }
}

/// The parameters and the result type of a function, and the `=` before its body.
pub(crate) fn put_signature(
    alloc: Global,
    parameters: &Parameters,
    annotation: &Option<Node<TypeExpression>>,
    equal_sign: bool,
    out: &mut Kinds,
) -> Result<(), Memory>
    ensures { OnOk result (out.new ≡ out.old ++ signature (parameters_tokens parameters.now) (option_map type_tokens annotation.now) equal_sign) }
{
    put_parameters(alloc, parameters, out)?;
    put_annotation(alloc, annotation, out)?;
    put_mark_if(out, equal_sign, Mark::EqualSign)
}
