//! The names that patterns bind. Each function adds those of a part to a list, within so many levels: a part of more levels than there are
//! addresses is none that memory holds.
ghost use Rattle.std.specs.Prelude.{◌≡◌, ◌++◌, OnOk, map};
ghost use Rattle.abstract_types.specs.PatternView.{fields, listed, pattern, pattern_field};
ghost use Rattle.desugaring.specs.FreeNames.{names_in, names_in_each, names_in_fields};
ghost use Rattle.judged_parts.specs.Parts.{See};

use crate::names::{Names, push_copy};
use abstract_types::{Pattern, PatternField, PatternForm};
use mo_num::Memory;
use std::alloc::Global;
use value_scopes::Note;

#[cycle(patterns)]
fn pattern_within(
    alloc: Global,
    q: &Pattern<Note>,
    depth: usize,
    names: &mut Names,
) -> Result<(), Memory>
    ensures { (see : See) → OnOk result (names.new ≡ names.old ++ names_in (pattern see q.now)) }
{
    if depth == 0 {
        return Err(Memory);
    }
    match q.form.get() {
        PatternForm::Annotated(q, _) => pattern_within(alloc, q, depth - 1, names),
        PatternForm::Alternative(_, _) => Ok(()),
        PatternForm::Optional(q) => pattern_within(alloc, q, depth - 1, names),
        PatternForm::Tag(_) => Ok(()),
        PatternForm::Tagged(_, q) => pattern_within(alloc, q, depth - 1, names),
        PatternForm::Variable(name) => push_copy(alloc, name.as_slice(), names),
        PatternForm::Wildcard => Ok(()),
        PatternForm::Constant(_, _) => Ok(()),
        PatternForm::Tuple(items) => each_within(alloc, items.as_slice(), depth - 1, names),
        PatternForm::Object(fields) => fields_within(alloc, fields.as_slice(), depth - 1, names),
    }
}

#[cycle(patterns)]
fn each_within(
    alloc: Global,
    items: &[Pattern<Note>],
    depth: usize,
    names: &mut Names,
) -> Result<(), Memory>
    ensures { (see : See) → OnOk result (names.new ≡ names.old ++ names_in_each (listed (map (pattern see) items.now))) }
{
    for item in items {
        pattern_within(alloc, item, depth, names)?;
    }
    Ok(())
}

#[cycle(patterns)]
fn fields_within(
    alloc: Global,
    list: &[PatternField<Note>],
    depth: usize,
    names: &mut Names,
) -> Result<(), Memory>
    ensures { (see : See) → OnOk result (names.new ≡ names.old ++ names_in_fields (fields (map (pattern_field see) list.now))) }
{
    for field in list {
        pattern_within(alloc, &field.pattern, depth, names)?;
    }
    Ok(())
}

/// Adds the names that a pattern binds, as they are written.
pub fn pattern_names(alloc: Global, q: &Pattern<Note>, names: &mut Names) -> Result<(), Memory>
    ensures { (see : See) → OnOk result (names.new ≡ names.old ++ names_in (pattern see q.now)) }
{
    pattern_within(alloc, q, usize::MAX, names)
}

/// Adds the names that patterns bind, as they are written.
pub fn parameter_names(
    alloc: Global,
    parameters: &[Pattern<Note>],
    names: &mut Names,
) -> Result<(), Memory>
    ensures { (see : See) → OnOk result (names.new ≡ names.old ++ names_in_each (listed (map (pattern see) parameters.now))) }
{
    each_within(alloc, parameters, usize::MAX, names)
}
