//! The walk over a pattern that asks whether each of its names stands directly under its type.
ghost use Rattle.std.specs.Prelude.{◌≡◌, map};
ghost use Rattle.typing_rules.specs.AbstractSyntax as syntax;
ghost use Rattle.typing_rules.specs.PublicFields.{AllAnnotated, EachAnnotated, FieldsAnnotated};
ghost use Rattle.abstract_types.specs.PatternView.{fields as views, listed, plain, plain_field};
ghost use Rattle.abstract_types.specs.TypeView.{type_node};
ghost use Rattle.annotated_names.specs.Verdicts.{IsVerdict, is_variable};

use abstract_types::{Pattern, PatternField, PatternForm, TypeNode};
use type_judgements::Refusal;
use typing_rules::Condition;

/// Whether the pattern is a name.
fn is_variable(pattern: &Pattern<u32>) -> bool
    ensures { result ≡ is_variable (plain pattern.now) }
{
    match pattern.form.get() {
        PatternForm::Variable(_) => true,
        PatternForm::Annotated(_, _) => false,
        PatternForm::Alternative(_, _) => false,
        PatternForm::Optional(_) => false,
        PatternForm::Tag(_) => false,
        PatternForm::Tagged(_, _) => false,
        PatternForm::Wildcard => false,
        PatternForm::Constant(_, _) => false,
        PatternForm::Tuple(_) => false,
        PatternForm::Object(_) => false,
    }
}

// A pattern of at most so many levels. One of more levels than there are addresses is none that memory holds.
#[cycle(within)]
fn annotated_within(depth: usize, pattern: &Pattern<u32>) -> Result<(), Refusal>
    ensures { IsVerdict (EachAnnotated (plain pattern.now)) result }
{
    if depth == 0 {
        return Err(Refusal::Memory);
    }
    match pattern.form.get() {
        PatternForm::Annotated(part, written) => part_within(
            depth - 1,
            pattern.note,
            part,
            written,
        ),
        PatternForm::Alternative(_, _) => Ok(()),
        PatternForm::Optional(part) => annotated_within(depth - 1, part),
        PatternForm::Tag(_) => Ok(()),
        PatternForm::Tagged(_, part) => annotated_within(depth - 1, part),
        PatternForm::Variable(_) => Err(Refusal::False(pattern.note, Condition::NeedsType)),
        PatternForm::Wildcard => Ok(()),
        PatternForm::Constant(_, _) => Ok(()),
        PatternForm::Tuple(items) => each_within(depth - 1, items.as_slice()),
        PatternForm::Object(fields) => fields_within(depth - 1, fields.as_slice()),
    }
}

/// `p : A`
#[cycle(within)]
fn part_within(
    depth: usize,
    at: u32,
    part: &Pattern<u32>,
    written: &TypeNode,
) -> Result<(), Refusal>
    ensures { IsVerdict (EachAnnotated (syntax.pattern at (syntax.Annotated (plain part.now) (type_node written.now)))) result }
{
    if is_variable(part) {
        Ok(())
    } else {
        annotated_within(depth, part)
    }
}

#[cycle(within)]
fn each_within(depth: usize, patterns: &[Pattern<u32>]) -> Result<(), Refusal>
    ensures { IsVerdict (AllAnnotated (listed (map plain patterns.now))) result }
{
    for pattern in patterns {
        annotated_within(depth, pattern)?;
    }
    Ok(())
}

#[cycle(within)]
fn fields_within(depth: usize, fields: &[PatternField<u32>]) -> Result<(), Refusal>
    ensures { IsVerdict (FieldsAnnotated (views (map plain_field fields.now))) result }
{
    for field in fields {
        annotated_within(depth, &field.pattern)?;
    }
    Ok(())
}

/// Whether each name of a pattern stands directly under its type, as those of public fields have to: Motoko language manual,
/// section "Objects". `False` names the first condition that is false, and its place. It recurses as deep as the pattern, and
/// patterns have no more levels than the parser lets pass.
pub fn each_annotated(pattern: &Pattern<u32>) -> Result<(), Refusal>
    ensures { IsVerdict (EachAnnotated (plain pattern.now)) result }
{
    annotated_within(usize::MAX, pattern)
}
