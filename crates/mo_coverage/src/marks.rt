//! Tags under which all values match, found at once.
ghost use Rattle.std.specs.Prelude.{◌≡◌, ◌⊎◌, ℕ, IfOk, IsTrue, Some, length, map, slice_get, true};
ghost use Rattle.mo_types.specs.declared.node.Field.{Field};
ghost use Rattle.mo_types.specs.declared.node.TypeId.{TypeId};
ghost use Rattle.typed_tree.specs.PatternView.{pattern, patterns};
ghost use Rattle.typed_tree.specs.Patterns.{Pat, Tagged};
ghost use Rattle.pattern_coverage.specs.Inhabited.{in_table};
ghost use Rattle.mo_coverage.specs.Easy.{AreEasyUnder, AreMarked, SomeEasy, are_names, is_easy, is_name};

use indexmap::IndexMap;
use mo_num::Memory;
use mo_types::Field;
use pattern_coverage::is_in;
use std::alloc::Global;
use typed_tree::{Literal, PatternForm, TypedPattern};

/// Where the tag of a label may stand. Each look-up is tested, so that nothing rests on it.
pub(crate) type Hints<'a> = IndexMap<&'a [u8], usize>;

#[tactic(auto, unfolding(typed_tree::specs::PatternView::pattern, typed_tree::specs::PatternView::pattern_form, typed_tree::specs::ViewLaws::field))]
fn is_name(typed: &TypedPattern) -> bool
    ensures { result ≡ is_name (pattern typed.now) }
{
    match typed.form.get() {
        PatternForm::Wildcard | PatternForm::Bind => true,
        _ => false,
    }
}

fn are_names(parts: &[TypedPattern]) -> bool
    ensures { result ≡ are_names (patterns parts.now) }
{
    for part in parts {
        if !is_name(part) {
            return false;
        }
    }
    true
}

/// Whether the pattern matches all values of its type, where that shows at once.
#[tactic(auto, unfolding(typed_tree::specs::PatternView::pattern, typed_tree::specs::PatternView::pattern_form, typed_tree::specs::ViewLaws::field))]
pub(crate) fn is_easy(typed: &TypedPattern) -> bool
    ensures { result ≡ is_easy (pattern typed.now) }
{
    match typed.form.get() {
        PatternForm::Wildcard | PatternForm::Bind | PatternForm::Constant(Literal::Unit) => true,
        PatternForm::Parts(parts) => are_names(parts.as_slice()),
        _ => false,
    }
}

/// Whether one of the patterns matches all values, where that shows at once.
pub(crate) fn some_easy(patterns: &[&TypedPattern]) -> bool
    ensures { IsTrue result → SomeEasy (map (λ p. pattern p.now) patterns.now) }
{
    for typed in patterns {
        if is_easy(*typed) {
            return true;
        }
    }
    false
}

/// Where each tag may stand.
pub(crate) fn hints<'a>(alloc: Global, tags: &'a [Field]) -> Result<Hints<'a>, Memory> {
    let mut hints = IndexMap::new(alloc);
    for (place, tag) in tags.iter().enumerate() {
        hints.insert(tag.label.as_slice(), place)?;
    }
    Ok(hints)
}

/// Where the tag of this label may stand.
pub(crate) fn hint(hints: &Hints<'_>, label: &[u8]) -> usize {
    match hints.get(label) {
        Some(place) => *place,
        None => 0,
    }
}

// Marks a tag, if it is at the place.
fn mark_at(tags: &[Field], place: usize, label: &[u8], marks: &mut Vec<bool>)
    ensures { (i : ℕ) (f : Field TypeId) → slice_get tags.now i ≡ Some f → slice_get marks.new.items i ≡ Some true → (slice_get marks.old.items i ≡ Some true) ⊎ (f.label ≡ label.now) }
{
    if place < tags.len() && place < marks.len() && tags[place].label.as_slice() == label {
        marks[place] = true;
    }
}

// Marks the tag of the pattern, if all values under it match.
#[tactic(auto, unfolding(typed_tree::specs::PatternView::pattern, typed_tree::specs::PatternView::pattern_form, typed_tree::specs::ViewLaws::field))]
fn mark(tags: &[Field], hints: &Hints<'_>, typed: &TypedPattern, marks: &mut Vec<bool>)
    ensures { (i : ℕ) (f : Field TypeId) → slice_get tags.now i ≡ Some f → slice_get marks.new.items i ≡ Some true → (slice_get marks.old.items i ≡ Some true) ⊎ ((q : Pat) × (pattern typed.now ≡ Tagged f.label q) × (is_easy q ≡ true)) }
{
    match typed.form.get() {
        PatternForm::Tagged(label, payload) => {
            if is_easy(payload) {
                mark_at(tags, hint(hints, label.as_slice()), label.as_slice(), marks);
            }
        }
        _ => {}
    }
}

fn all_marks(alloc: Global, tags: &[Field], patterns: &[&TypedPattern]) -> Result<Vec<bool>, Memory>
    ensures { IfOk result (λ marks. AreMarked tags.now marks.items (map (λ p. pattern p.now) patterns.now)) }
{
    let hints = hints(alloc, tags)?;
    let mut marks = vec![in alloc; false; tags.len()]?;
    for typed in patterns {
        mark(tags, &hints, *typed, &mut marks);
    }
    Ok(marks)
}

// Whether each tag with values is marked.
fn are_marked(table: &[bool], tags: &[Field], marks: &[bool]) -> bool
    ensures { IsTrue result → (i : ℕ) (f : Field TypeId) → slice_get tags.now i ≡ Some f → in_table table.now f.part ≡ true → slice_get marks.now i ≡ Some true }
{
    for (place, tag) in tags.iter().enumerate() {
        if is_in(table, tag.part) && (place >= marks.len() || !marks[place]) {
            return false;
        }
    }
    true
}

/// Whether under each tag with values one of the patterns matches all values, where that shows at once. Takes a step for each tag
/// and each pattern.
pub(crate) fn are_easy(
    alloc: Global,
    table: &[bool],
    tags: &[Field],
    patterns: &[&TypedPattern],
) -> Result<bool, Memory>
    ensures { IfOk result (λ all. IsTrue all → AreEasyUnder (in_table table.now) tags.now (map (λ p. pattern p.now) patterns.now)) }
{
    let marks = all_marks(alloc, tags, patterns)?;
    Ok(are_marked(table, tags, marks.as_slice()))
}
