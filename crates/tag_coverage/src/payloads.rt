//! The patterns under the tags of patterns, tag by tag.
ghost use Rattle.std.specs.Prelude.{◌≡◌, ◌++◌, ◌∷◌, ◌<◌, [], ℕ, IfOk, IfSome, IsTrue, OnOk, cond, length, nat_eq, replicate};
ghost use Rattle.mo_types.specs.Sub.{Each};
ghost use Rattle.typed_tree.specs.PatternView.{pattern};
ghost use Rattle.typed_tree.specs.Types.{LabelsDiffer};
ghost use Rattle.tag_coverage.specs.Payloads.{AreSorted, IsSorted, IsTag, listed, patterns_in};

use indexmap::IndexMap;
use mo_num::{Memory, Sequence};
use mo_types::Field;
use std::alloc::Global;
use typed_tree::{PatternForm, TypedPattern};

// Where the tag of a label may stand. Each look-up is tested, so that nothing rests on it.
type Hints<'a> = IndexMap<&'a [u8], usize>;

/// Lists of patterns, one for each tag.
pub(crate) type Lists<'a> = Vec<Sequence<&'a TypedPattern>>;

fn hints<'a>(alloc: Global, tags: &'a [Field]) -> Result<Hints<'a>, Memory> {
    let mut hints = IndexMap::new(alloc);
    for (place, tag) in tags.iter().enumerate() {
        hints.insert(tag.label.as_slice(), place)?;
    }
    Ok(hints)
}

fn hint(hints: &Hints<'_>, label: &[u8]) -> usize {
    match hints.get(label) {
        Some(place) => *place,
        None => 0,
    }
}

fn is_tag(typed: &TypedPattern) -> bool {
    match typed.form.get() {
        PatternForm::Tagged(_, _) => true,
        _ => false,
    }
}

// Whether all are tags. It is asked before anything is made for the tags of a type, which may be many more than the patterns.
fn are_tags(patterns: &[&TypedPattern]) -> bool {
    for typed in patterns {
        if !is_tag(*typed) {
            return false;
        }
    }
    true
}

fn no_lists<'a>(alloc: Global, count: usize) -> Result<Lists<'a>, Memory>
    ensures { IfOk result (λ made. made.items ≡ replicate count []) }
{
    let mut lists = Vec::with_capacity(alloc, count)?;
    for _count in 0..count {
        lists.push(Sequence::new(alloc))?;
    }
    Ok(lists)
}

// Puts a pattern into the list with this number, if there is one.
fn put<'a>(
    lists: &mut [Sequence<&'a TypedPattern>],
    place: usize,
    typed: &'a TypedPattern,
) -> Result<(), Memory>
    ensures { (n : ℕ) → OnOk result (n < length lists.old → listed lists.new n ≡ listed lists.old n ++ cond (nat_eq place n) (pattern typed.entry.now ∷ []) []) }
{
    if place < lists.len() {
        lists[place].push(typed)?;
    }
    Ok(())
}

// Puts what stands under the tag of a pattern into the list of that tag, and tells whether it did.
#[tactic(auto, unfolding(typed_tree::specs::PatternView::pattern, typed_tree::specs::PatternView::pattern_form, typed_tree::specs::ViewLaws::field))]
fn sort_in<'a>(
    tags: &[Field],
    hints: &Hints<'_>,
    typed: &'a TypedPattern,
    lists: &mut [Sequence<&'a TypedPattern>],
) -> Result<bool, Memory>
    ensures { IfOk result (λ is. IsTrue is → IsSorted tags.now (pattern typed.entry.now) lists.old lists.new) }
{
    match typed.form.get() {
        PatternForm::Tagged(label, inside) => {
            let place = hint(hints, label.as_slice());
            if place < tags.len() && tags[place].label.as_slice() == label.as_slice() {
                put(lists, place, inside)?;
                Ok(true)
            } else {
                Ok(false)
            }
        }
        _ => Ok(false),
    }
}

/// For each tag the patterns under it, in their order, if each pattern is a tag of the type. Takes a step for each tag and each pattern.
pub(crate) fn payloads<'a>(
    alloc: Global,
    tags: &[Field],
    patterns: &[&'a TypedPattern],
) -> Result<Option<Lists<'a>>, Memory>
    requires differ { LabelsDiffer tags.now }
    ensures tags { IfOk result (λ some. IfSome some (λ _. Each IsTag (patterns_in patterns.now))) }
    ensures sorted { IfOk result (λ some. IfSome some (λ lists. AreSorted tags.now (patterns_in patterns.now) lists.items)) }
{
    if !are_tags(patterns) {
        return Ok(None);
    }
    let hints = hints(alloc, tags)?;
    let mut lists = no_lists(alloc, tags.len())?;
    for typed in patterns {
        if !sort_in(tags, &hints, *typed, &mut lists)? {
            return Ok(None);
        }
    }
    Ok(Some(lists))
}
