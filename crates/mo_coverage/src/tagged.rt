//! Patterns that are tags alone, under each of which all values match: what they miss is found at once.
ghost use Rattle.std.specs.Prelude.{◌≡◌, ◌<◌, [], IfOk, IfSome, OnOk, length, map, reverse, slice_get, slice_set, true};
ghost use Rattle.mo_types.specs.Sub.{Each};
ghost use Rattle.typed_tree.specs.PatternView.{pattern};
ghost use Rattle.typed_tree.specs.Types.{LabelsDiffer};
ghost use Rattle.pattern_coverage.specs.Inhabited.{flag_there, in_table};
ghost use Rattle.mo_coverage.specs.Covering.{cover_in};
ghost use Rattle.mo_coverage.specs.Met.{AreEasyTags, HasMet, IsEasyAt, IsEasyTag, IsMet, left_over, met, unmarked};

use crate::marks::{Hints, hint, hints, is_easy};
use crate::missing::Cover;
use crate::shape::Shape;
use mo_num::{Bytes, Memory, Sequence};
use mo_types::Field;
use pattern_coverage::is_in;
use std::alloc::Global;
use typed_tree::{PatternForm, TypedPattern};

// The labels of the tags that were met, the first first, and for each tag of the type whether it was met.
#[derive(Drop)]
struct Met {
    labels: Vec<Bytes>,
    marks: Vec<bool>,
}

// The place of the tag of a pattern, if all values under it match and that shows at once.
#[tactic(auto, unfolding(typed_tree::specs::PatternView::pattern, typed_tree::specs::PatternView::pattern_form, typed_tree::specs::ViewLaws::field))]
fn easy_place(tags: &[Field], hints: &Hints<'_>, typed: &TypedPattern) -> Option<usize>
    ensures place { IfSome result (λ place. IsEasyAt tags.now (pattern typed.now) place) }
    ensures within { IfSome result (λ place. place < length tags.now) }
{
    match typed.form.get() {
        PatternForm::Tagged(label, payload) => {
            let place = hint(hints, label.as_slice());
            if place < tags.len()
                && tags[place].label.as_slice() == label.as_slice()
                && is_easy(payload)
            {
                Some(place)
            } else {
                None
            }
        }
        _ => None,
    }
}

fn is_marked(marks: &[bool], place: usize) -> bool
    ensures { result ≡ flag_there (slice_get marks.now place) }
{
    match marks.get(place) {
        Some(mark) => *mark,
        None => false,
    }
}

#[tactic(auto, using(crate::proofs::MetMarks::set_past))]
fn set_mark(marks: &mut Vec<bool>, place: usize)
    ensures { marks.new.items ≡ slice_set marks.old.items place true }
{
    if place < marks.len() {
        marks[place] = true;
    }
}

// Notes that a tag is met.
#[tactic(auto, using(crate::proofs::MetMarks::met_again, crate::proofs::MetMarks::met_new))]
fn meet(alloc: Global, tags: &[Field], place: usize, found: &mut Met) -> Result<(), Memory>
    requires within { place < length tags.now }
    requires differ { LabelsDiffer tags.now }
    requires marks { IsMet tags.now found.now }
    ensures { OnOk result (HasMet tags.now place found.old found.new) }
{
    if is_marked(found.marks.as_slice(), place) {
        return Ok(());
    }
    let label = Bytes::from_slice(alloc, tags[place].label.as_slice())?;
    found.labels.push(label)?;
    set_mark(&mut found.marks, place);
    Ok(())
}

// The tags that the patterns meet, if all of these are such patterns.
fn meet_all(
    alloc: Global,
    tags: &[Field],
    patterns: &[&TypedPattern],
) -> Result<Option<Met>, Memory>
    requires differ { LabelsDiffer tags.now }
    ensures easy { IfOk result (λ found. IfSome found (λ _. Each (IsEasyTag tags.now) (map (λ p. pattern p.now) patterns.now))) }
    ensures marks { IfOk result (λ found. IfSome found (IsMet tags.now)) }
    ensures labels { IfOk result (λ found. IfSome found (λ made. reverse made.labels.items ≡ met (map (λ p. pattern p.now) patterns.now) [])) }
{
    let hints = hints(alloc, tags)?;
    let mut found = Met {
        labels: Vec::new(alloc),
        marks: vec![in alloc; false; tags.len()]?,
    };
    for typed in patterns {
        match easy_place(tags, &hints, *typed) {
            Some(place) => meet(alloc, tags, place, &mut found)?,
            None => return Ok(None),
        }
    }
    Ok(Some(found))
}

// Whether a tag with values is not marked.
fn is_unmarked(table: &[bool], tags: &[Field], marks: &[bool]) -> bool
    ensures { result ≡ unmarked (in_table table.now) 0 tags.now marks.now }
{
    for (place, tag) in tags.iter().enumerate() {
        if is_in(table, tag.part) && !is_marked(marks, place) {
            return true;
        }
    }
    false
}

// What is missed besides these tags.
#[tactic(auto, unfolding(crate::specs::Shapes::known), using(crate::proofs::MetMarks::unmarked_left))]
fn besides(table: &[bool], tags: &[Field], found: Met) -> Cover
    requires marks { IsMet tags.now found }
    ensures { cover_in result ≡ left_over (in_table table.now) tags.now (reverse found.labels.items) }
{
    let Met { mut labels, marks } = found;
    if is_unmarked(table, tags, marks.as_slice()) {
        labels.reverse();
        Cover::Misses(Shape::NotUnder(Sequence::from_vec(labels)))
    } else {
        Cover::Whole
    }
}

/// What the patterns miss of a variant, if each is a tag, under which all values match, and that shows at once. Takes a step for
/// each tag and each pattern.
#[tactic(auto, using(crate::proofs::EasyTags::some_tags))]
pub(crate) fn tagged_alone(
    alloc: Global,
    table: &[bool],
    tags: &[Field],
    patterns: &[&TypedPattern],
) -> Result<Option<Cover>, Memory>
    requires differ { LabelsDiffer tags.now }
    ensures easy { IfOk result (λ some. IfSome some (λ _. AreEasyTags tags.now (map (λ p. pattern p.now) patterns.now))) }
    ensures cover { IfOk result (λ some. IfSome some (λ cover. cover_in cover ≡ left_over (in_table table.now) tags.now (met (map (λ p. pattern p.now) patterns.now) []))) }
{
    if patterns.is_empty() {
        return Ok(None);
    }
    match meet_all(alloc, tags, patterns)? {
        Some(found) => Ok(Some(besides(table, tags, found))),
        None => Ok(None),
    }
}
