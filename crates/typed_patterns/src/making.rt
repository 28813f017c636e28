//! Patterns with their types, made of their parts.
ghost use Rattle.std.specs.Prelude.{◌≡◌, IfOk};
ghost use Rattle.typing_rules.specs.AbstractSyntax as syntax;
ghost use Rattle.typing_rules.specs.Spans.{literal_of};
ghost use Rattle.abstract_types.specs.TypeView.{type_node};
ghost use Rattle.typed_patterns.specs.Making.{IsMade, form_in, pattern_in};

use abstract_types::{
    Boxed, Pattern, PatternField, PatternForm, PlacedName, TypeNode, copied_literal,
};
use mo_num::{Bytes, Memory};
use mo_syntax::Literal;
use std::alloc::Global;
use type_copies::{copied_name, copied_type};
use value_scopes::Note;

// The pattern of this note and this form, part by part.
fn of_parts(alloc: Global, note: Note, form: PatternForm<Note>) -> Result<Pattern<Note>, Memory>
    ensures { IfOk result (λ made. (made.note ≡ note) × (made.form ≡ form)) }
{
    Ok(Pattern {
        note,
        form: Boxed::new(alloc, form)?,
    })
}

/// The pattern of this form with this note.
pub(crate) fn made(
    alloc: Global,
    note: Note,
    form: PatternForm<Note>,
) -> Result<Pattern<Note>, Memory>
    ensures { IfOk result (IsMade note (form_in form)) }
{
    of_parts(alloc, note, form)
}

/// `p : A`
pub(crate) fn annotated(
    alloc: Global,
    note: Note,
    part: Pattern<Note>,
    written: &TypeNode,
) -> Result<Pattern<Note>, Memory>
    ensures { IfOk result (IsMade note (λ later. syntax.Annotated (pattern_in part later) (type_node written.now))) }
{
    let written = copied_type(alloc, written)?;
    made(alloc, note, PatternForm::Annotated(part, written))
}

/// `#a`
pub(crate) fn tag(alloc: Global, note: Note, name: &Bytes) -> Result<Pattern<Note>, Memory>
    ensures { IfOk result (IsMade note (λ later. syntax.Tag name.now)) }
{
    let name = Bytes::from_slice(alloc, name.as_slice())?;
    made(alloc, note, PatternForm::Tag(name))
}

/// `#a p`
pub(crate) fn tagged(
    alloc: Global,
    note: Note,
    name: &Bytes,
    part: Pattern<Note>,
) -> Result<Pattern<Note>, Memory>
    ensures { IfOk result (IsMade note (λ later. syntax.Tagged name.now (pattern_in part later))) }
{
    let name = Bytes::from_slice(alloc, name.as_slice())?;
    made(alloc, note, PatternForm::Tagged(name, part))
}

/// A name.
pub(crate) fn variable(alloc: Global, note: Note, name: &Bytes) -> Result<Pattern<Note>, Memory>
    ensures { IfOk result (IsMade note (λ later. syntax.Variable name.now)) }
{
    let name = Bytes::from_slice(alloc, name.as_slice())?;
    made(alloc, note, PatternForm::Variable(name))
}

/// A literal, with `-` before it or not.
pub(crate) fn constant(
    alloc: Global,
    note: Note,
    minus: bool,
    literal: &Literal,
) -> Result<Pattern<Note>, Memory>
    ensures { IfOk result (IsMade note (λ later. syntax.Constant minus (literal_of literal.now))) }
{
    let literal = copied_literal(alloc, literal)?;
    made(alloc, note, PatternForm::Constant(minus, literal))
}

/// `x = p` in an object pattern.
pub(crate) fn pattern_field(
    alloc: Global,
    name: &PlacedName,
    pattern: Pattern<Note>,
) -> Result<PatternField<Note>, Memory>
    ensures { IfOk result (λ made. (made.name ≡ name.now) × (made.pattern ≡ pattern)) }
{
    Ok(PatternField {
        name: copied_name(alloc, name)?,
        pattern,
    })
}
