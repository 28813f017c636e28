//! The walk over patterns that asks whether they stand.
ghost use Rattle.std.specs.Prelude.{◌≡◌, ◌∷◌, [], OnOk, map};
ghost use Rattle.typing_rules.specs.AbstractSyntax as syntax;
ghost use Rattle.met_types.specs.States.{IsReached};
ghost use Rattle.abstract_types.specs.PatternView.{fields as views, listed, plain, plain_field};
ghost use Rattle.abstract_types.specs.TypeView.{type_node};
ghost use Rattle.type_scopes.specs.Scopes.{seen};
ghost use Rattle.proper_types.specs.Passing.{Judges, Ready};
ghost use Rattle.typed_patterns.specs.Binding.{Pushes, field_in, fields_stand, silent, stands};
ghost use Rattle.typed_patterns.specs.Making.{pattern_in};

use crate::head::{field_part, needs_object, option_part, tag_part, tuple_parts};
use crate::leaves::{constant_stands, tag_stands, variable_stands};
use crate::making::{annotated, made, pattern_field, tagged};
use abstract_types::{Pattern, PatternField, PatternForm, TypeNode};
use met_types::Types;
use mo_num::Bytes;
use mo_syntax::Items;
use proper_types::reads;
use shareable_types::Sharing;
use type_judgements::{Refusal, needs_below};
use type_scopes::TypeScope;
use type_terms::TermId;
use typing_rules::Condition;
use value_scopes::{Note, ValueScope};

// A pattern of at most so many levels. One of more levels than there are addresses is none that memory holds.
#[cycle(within)]
fn stands_within(
    scope: &TypeScope,
    types: &mut Types,
    sharing: &mut Sharing,
    names: &mut ValueScope,
    depth: usize,
    pattern: &Pattern<u32>,
    kind: TermId,
) -> Result<Pattern<Note>, Refusal>
    requires ready { Ready types.old sharing.old }
    requires reached { IsReached types.old kind }
    ensures { Pushes (stands (seen scope.now) (plain pattern.now) kind) types.old types.new sharing.new names.old names.new pattern_in result }
{
    if depth == 0 {
        return Err(Refusal::Memory);
    }
    let note = Note {
        at: pattern.note,
        kind,
    };
    match pattern.form.get() {
        PatternForm::Annotated(part, written) => {
            annotated_within(scope, types, sharing, names, depth - 1, note, part, written)
        }
        PatternForm::Alternative(first, second) => {
            alternative_within(scope, types, sharing, names, depth - 1, note, first, second)
        }
        PatternForm::Optional(part) => {
            optional_within(scope, types, sharing, names, depth - 1, note, part)
        }
        PatternForm::Tag(name) => tag_stands(types, sharing, names, note, name),
        PatternForm::Tagged(name, part) => {
            tagged_within(scope, types, sharing, names, depth - 1, note, name, part)
        }
        PatternForm::Variable(name) => variable_stands(types, sharing, names, note, name),
        PatternForm::Wildcard => Ok(made(types.terms().allocator(), note, PatternForm::Wildcard)?),
        PatternForm::Constant(minus, literal) => {
            constant_stands(types, sharing, names, note, *minus, literal)
        }
        PatternForm::Tuple(items) => tuple_within(
            scope,
            types,
            sharing,
            names,
            depth - 1,
            note,
            items.as_slice(),
        ),
        PatternForm::Object(fields) => object_within(
            scope,
            types,
            sharing,
            names,
            depth - 1,
            note,
            fields.as_slice(),
        ),
    }
}

/// `p : A` on a subtype of A.
#[cycle(within)]
fn annotated_within(
    scope: &TypeScope,
    types: &mut Types,
    sharing: &mut Sharing,
    names: &mut ValueScope,
    depth: usize,
    note: Note,
    part: &Pattern<u32>,
    written: &TypeNode,
) -> Result<Pattern<Note>, Refusal>
    requires ready { Ready types.old sharing.old }
    requires reached { IsReached types.old note.kind }
    ensures { Pushes (stands (seen scope.now) (syntax.pattern note.at (syntax.Annotated (plain part.now) (type_node written.now))) note.kind) types.old types.new sharing.new names.old names.new pattern_in result }
{
    let kind = reads(scope, types, sharing, written)?;
    let alloc = types.terms().allocator();
    needs_below(
        alloc,
        types,
        Condition::PatternType,
        note.at,
        note.kind,
        kind,
    )?;
    let part = stands_within(scope, types, sharing, names, depth, part, kind)?;
    Ok(annotated(alloc, Note { at: note.at, kind }, part, written)?)
}

/// A pattern that binds nothing.
#[cycle(within)]
fn silent_within(
    scope: &TypeScope,
    types: &mut Types,
    sharing: &mut Sharing,
    names: &mut ValueScope,
    depth: usize,
    note: Note,
    pattern: &Pattern<u32>,
) -> Result<Pattern<Note>, Refusal>
    requires ready { Ready types.old sharing.old }
    requires reached { IsReached types.old note.kind }
    ensures names { OnOk result (names.new ≡ names.old) }
    ensures judged { Judges (silent (seen scope.now) note.at (plain pattern.now) note.kind) types.old types.new sharing.new pattern_in result }
{
    let before = names.len();
    let made = stands_within(scope, types, sharing, names, depth, pattern, note.kind)?;
    if names.len() == before {
        Ok(made)
    } else {
        Err(Refusal::False(note.at, Condition::PatternType))
    }
}

/// `p or q`, which bind nothing.
#[cycle(within)]
fn alternative_within(
    scope: &TypeScope,
    types: &mut Types,
    sharing: &mut Sharing,
    names: &mut ValueScope,
    depth: usize,
    note: Note,
    first: &Pattern<u32>,
    second: &Pattern<u32>,
) -> Result<Pattern<Note>, Refusal>
    requires ready { Ready types.old sharing.old }
    requires reached { IsReached types.old note.kind }
    ensures { Pushes (stands (seen scope.now) (syntax.pattern note.at (syntax.Alternative (plain first.now) (plain second.now))) note.kind) types.old types.new sharing.new names.old names.new pattern_in result }
{
    let first = silent_within(scope, types, sharing, names, depth, note, first)?;
    let second = silent_within(scope, types, sharing, names, depth, note, second)?;
    let alloc = types.terms().allocator();
    Ok(made(alloc, note, PatternForm::Alternative(first, second))?)
}

/// `? p`
#[cycle(within)]
fn optional_within(
    scope: &TypeScope,
    types: &mut Types,
    sharing: &mut Sharing,
    names: &mut ValueScope,
    depth: usize,
    note: Note,
    part: &Pattern<u32>,
) -> Result<Pattern<Note>, Refusal>
    requires ready { Ready types.old sharing.old }
    requires reached { IsReached types.old note.kind }
    ensures { Pushes (stands (seen scope.now) (syntax.pattern note.at (syntax.Optional (plain part.now))) note.kind) types.old types.new sharing.new names.old names.new pattern_in result }
{
    let kind = option_part(types, note.at, note.kind)?;
    let part = stands_within(scope, types, sharing, names, depth, part, kind)?;
    Ok(made(types.terms().allocator(), note, PatternForm::Optional(part))?)
}

/// `#a p`
#[cycle(within)]
fn tagged_within(
    scope: &TypeScope,
    types: &mut Types,
    sharing: &mut Sharing,
    names: &mut ValueScope,
    depth: usize,
    note: Note,
    name: &Bytes,
    part: &Pattern<u32>,
) -> Result<Pattern<Note>, Refusal>
    requires ready { Ready types.old sharing.old }
    requires reached { IsReached types.old note.kind }
    ensures { Pushes (stands (seen scope.now) (syntax.pattern note.at (syntax.Tagged name.now (plain part.now))) note.kind) types.old types.new sharing.new names.old names.new pattern_in result }
{
    let kind = tag_part(types, note.at, note.kind, name.as_slice())?;
    let part = stands_within(scope, types, sharing, names, depth, part, kind)?;
    Ok(tagged(types.terms().allocator(), note, name, part)?)
}

/// `(p, q)`, as many patterns as the tuple has parts.
#[cycle(within)]
fn tuple_within(
    scope: &TypeScope,
    types: &mut Types,
    sharing: &mut Sharing,
    names: &mut ValueScope,
    depth: usize,
    note: Note,
    items: &[Pattern<u32>],
) -> Result<Pattern<Note>, Refusal>
    requires ready { Ready types.old sharing.old }
    requires reached { IsReached types.old note.kind }
    ensures { Pushes (stands (seen scope.now) (syntax.pattern note.at (syntax.Tuple (listed (map plain items.now)))) note.kind) types.old types.new sharing.new names.old names.new pattern_in result }
{
    let alloc = types.terms().allocator();
    let kinds = tuple_parts(alloc, types, note.at, note.kind)?;
    let mut parts = Items::new(alloc);
    for i in 0..items.len() {
        if i >= kinds.len() {
            return Err(Refusal::False(note.at, Condition::PatternType));
        }
        parts.push(stands_within(scope, types, sharing, names, depth, &items[i], kinds[i])?)?;
    }
    if items.len() < kinds.len() {
        return Err(Refusal::False(note.at, Condition::PatternType));
    }
    Ok(made(alloc, note, PatternForm::Tuple(parts))?)
}

/// `x = p` in an object pattern.
#[cycle(within)]
fn field_within(
    scope: &TypeScope,
    types: &mut Types,
    sharing: &mut Sharing,
    names: &mut ValueScope,
    depth: usize,
    kind: TermId,
    field: &PatternField<u32>,
) -> Result<PatternField<Note>, Refusal>
    requires ready { Ready types.old sharing.old }
    requires reached { IsReached types.old kind }
    ensures { Pushes (fields_stand (seen scope.now) (plain_field field.now ∷ []) kind) types.old types.new sharing.new names.old names.new field_in result }
{
    let part = field_part(types, kind, &field.name)?;
    let pattern = stands_within(scope, types, sharing, names, depth, &field.pattern, part)?;
    Ok(pattern_field(types.terms().allocator(), &field.name, pattern)?)
}

/// `{ x = p; y = q }`, fields that are there, and not `var`.
#[cycle(within)]
fn object_within(
    scope: &TypeScope,
    types: &mut Types,
    sharing: &mut Sharing,
    names: &mut ValueScope,
    depth: usize,
    note: Note,
    fields: &[PatternField<u32>],
) -> Result<Pattern<Note>, Refusal>
    requires ready { Ready types.old sharing.old }
    requires reached { IsReached types.old note.kind }
    ensures { Pushes (stands (seen scope.now) (syntax.pattern note.at (syntax.Object (views (map plain_field fields.now)))) note.kind) types.old types.new sharing.new names.old names.new pattern_in result }
{
    needs_object(types, note.at, note.kind)?;
    let alloc = types.terms().allocator();
    let mut parts = Items::new(alloc);
    for field in fields {
        parts.push(field_within(scope, types, sharing, names, depth, note.kind, field)?)?;
    }
    Ok(made(alloc, note, PatternForm::Object(parts))?)
}

/// Whether a pattern stands on a type that is met: Motoko language manual, section "Patterns". It gives the pattern with the type of
/// each part, and binds its names in front of the others, each to its type. `False` names the first condition that is false, and its
/// place; the names are then of no use. It recurses as deep as the pattern, and patterns have no more levels than the parser lets
/// pass.
pub fn stands(
    scope: &TypeScope,
    types: &mut Types,
    sharing: &mut Sharing,
    names: &mut ValueScope,
    pattern: &Pattern<u32>,
    kind: TermId,
) -> Result<Pattern<Note>, Refusal>
    requires ready { Ready types.old sharing.old }
    requires reached { IsReached types.old kind }
    ensures { Pushes (stands (seen scope.now) (plain pattern.now) kind) types.old types.new sharing.new names.old names.new pattern_in result }
{
    stands_within(scope, types, sharing, names, usize::MAX, pattern, kind)
}
