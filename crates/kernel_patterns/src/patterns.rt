//! Patterns, written out.
ghost use Rattle.std.specs.Prelude.{◌≡◌, IfOk, map};
ghost use Rattle.kernel_types.specs.Numbers.{number_of};
ghost use Rattle.kernel_patterns.specs.Written.{empty_tag, on, pattern_of, patterns_of, field_of};

use crate::literals::kernel_literal;
use abstract_types::{Pattern, PatternField, PatternForm};
use kernel_types::KernelTypes;
use mo_num::{Bytes, Memory};
use mo_syntax::{Items, Node, Place};
use mo_types::TypeId;
use std::alloc::Global;
use type_terms::TermId;
use typed_tree::{Literal, TypedPattern};
use value_scopes::Note;

/// The pattern of this form on the type of this number. Where it was written is of no use any more.
fn on_number(
    alloc: Global,
    of_type: TypeId,
    form: typed_tree::PatternForm,
) -> Result<TypedPattern, Memory>
    ensures { IfOk result (λ made. made ≡ on of_type form) }
{
    let place = Place { start: 0, end: 0 };
    Ok(TypedPattern {
        of_type,
        form: Node::new(alloc, place, form)?,
    })
}

/// The pattern of this form on a type of the graph.
fn stands(
    alloc: Global,
    types: &KernelTypes,
    kind: TermId,
    form: typed_tree::PatternForm,
) -> Result<TypedPattern, Memory>
    ensures { IfOk result (λ made. made ≡ on (number_of types.now kind) form) }
{
    on_number(alloc, types.number(kind)?, form)
}

/// `#a`, which is `#a ()`.
fn tag(
    alloc: Global,
    types: &KernelTypes,
    kind: TermId,
    name: &Bytes,
) -> Result<TypedPattern, Memory>
    ensures { IfOk result (λ made. made ≡ on (number_of types.now kind) (empty_tag types.now name.now)) }
{
    let unit = typed_tree::PatternForm::Constant(Literal::Unit);
    let part = on_number(alloc, types.unit(alloc)?, unit)?;
    let name = Bytes::from_slice(alloc, name.as_slice())?;
    stands(
        alloc,
        types,
        kind,
        typed_tree::PatternForm::Tagged(name, part),
    )
}

// A pattern of at most so many levels. One of more levels than there are addresses is none that memory holds.
#[cycle(within)]
fn pattern_within(
    alloc: Global,
    types: &KernelTypes,
    depth: usize,
    pattern: &Pattern<Note>,
) -> Result<TypedPattern, Memory>
    ensures { IfOk result (λ made. made ≡ pattern_of types.now pattern.now) }
{
    if depth == 0 {
        return Err(Memory);
    }
    let kind = pattern.note.kind;
    match pattern.form.get() {
        PatternForm::Annotated(part, _) => pattern_within(alloc, types, depth - 1, part),
        PatternForm::Alternative(first, second) => {
            let first = pattern_within(alloc, types, depth - 1, first)?;
            let second = pattern_within(alloc, types, depth - 1, second)?;
            let form = typed_tree::PatternForm::Either(first, second);
            stands(alloc, types, kind, form)
        }
        PatternForm::Optional(part) => {
            let part = pattern_within(alloc, types, depth - 1, part)?;
            let form = typed_tree::PatternForm::Present(part);
            stands(alloc, types, kind, form)
        }
        PatternForm::Tag(name) => tag(alloc, types, kind, name),
        PatternForm::Tagged(name, part) => {
            let part = pattern_within(alloc, types, depth - 1, part)?;
            let name = Bytes::from_slice(alloc, name.as_slice())?;
            let form = typed_tree::PatternForm::Tagged(name, part);
            stands(alloc, types, kind, form)
        }
        PatternForm::Variable(_) => stands(alloc, types, kind, typed_tree::PatternForm::Bind),
        PatternForm::Wildcard => stands(alloc, types, kind, typed_tree::PatternForm::Wildcard),
        PatternForm::Constant(minus, literal) => {
            let literal = kernel_literal(alloc, types, kind, *minus, literal)?;
            let form = typed_tree::PatternForm::Constant(literal);
            stands(alloc, types, kind, form)
        }
        PatternForm::Tuple(items) => {
            let parts = patterns_within(alloc, types, depth - 1, items.as_slice())?;
            let form = typed_tree::PatternForm::Parts(parts);
            stands(alloc, types, kind, form)
        }
        PatternForm::Object(fields) => {
            let parts = fields_within(alloc, types, depth - 1, fields.as_slice())?;
            let form = typed_tree::PatternForm::Fields(parts);
            stands(alloc, types, kind, form)
        }
    }
}

#[cycle(within)]
fn patterns_within(
    alloc: Global,
    types: &KernelTypes,
    depth: usize,
    patterns: &[Pattern<Note>],
) -> Result<Items<TypedPattern>, Memory>
    ensures { IfOk result (λ made. made ≡ map (pattern_of types.now) patterns.now) }
{
    let mut made = Items::new(alloc);
    for pattern in patterns {
        made.push(pattern_within(alloc, types, depth, pattern)?)?;
    }
    Ok(made)
}

#[cycle(within)]
fn field_within(
    alloc: Global,
    types: &KernelTypes,
    depth: usize,
    field: &PatternField<Note>,
) -> Result<typed_tree::PatternField, Memory>
    ensures { IfOk result (λ made. made ≡ field_of types.now field.now) }
{
    let pattern = pattern_within(alloc, types, depth, &field.pattern)?;
    let label = Bytes::from_slice(alloc, field.name.bytes.as_slice())?;
    Ok(typed_tree::PatternField { label, pattern })
}

#[cycle(within)]
fn fields_within(
    alloc: Global,
    types: &KernelTypes,
    depth: usize,
    fields: &[PatternField<Note>],
) -> Result<Items<typed_tree::PatternField>, Memory>
    ensures { IfOk result (λ made. made ≡ map (field_of types.now) fields.now) }
{
    let mut made = Items::new(alloc);
    for field in fields {
        made.push(field_within(alloc, types, depth, field)?)?;
    }
    Ok(made)
}

/// The typed pattern that a judged one is written out to. It recurses as deep as the pattern, and patterns have no more levels than
/// the parser lets pass.
pub fn kernel_pattern(
    alloc: Global,
    types: &KernelTypes,
    pattern: &Pattern<Note>,
) -> Result<TypedPattern, Memory>
    ensures { IfOk result (λ made. made ≡ pattern_of types.now pattern.now) }
{
    pattern_within(alloc, types, usize::MAX, pattern)
}

/// Those of several patterns.
pub fn kernel_patterns(
    alloc: Global,
    types: &KernelTypes,
    patterns: &[Pattern<Note>],
) -> Result<Items<TypedPattern>, Memory>
    ensures { IfOk result (λ made. made ≡ patterns_of types.now patterns.now) }
{
    patterns_within(alloc, types, usize::MAX, patterns)
}
