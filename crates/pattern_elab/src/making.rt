//! The tests of one pattern.
ghost use Rattle.std.specs.Prelude.{◌≡◌, ◌++◌, ◌∷◌, [], length, OnOk, OnErr, IfOk};
ghost use Rattle.typed_tree.specs.PatternView.{pattern, patterns};
ghost use Rattle.pattern_elab.specs.Making.{begun, fields_made, made_of, parts_made};
ghost use Rattle.typed_tree.specs.PatternView.{pats};
ghost use Rattle.typed_tree.specs.ViewLaws.{labels_of, patterns_of};

use crate::decision::{Place, Question, Target, Test};
use crate::literal::part_of;
use mo_num::{Bytes, Memory, Sequence};
use std::alloc::Global;
use typed_tree::{Literal, PatternField, PatternForm, TypedPattern};

/// The tests that are made so far.
#[derive(Drop)]
pub(crate) struct State {
    pub places: Sequence<Place>,
    pub tests: Sequence<Test>,
}

impl State {
    // A further place.
    pub(crate) fn place(&mut self, place: Place) -> Result<usize, Memory>
        ensures made { OnOk result (self.new ≡ record { places = self.old.places ++ place ∷ []; tests = self.old.tests }) }
        ensures number { IfOk result (λ number. number ≡ length self.old.places) }
    {
        let number = self.places.len();
        self.places.push(place)?;
        Ok(number)
    }

    // A further test.
    pub(crate) fn ask(&mut self, test: Test) -> Result<Target, Memory>
        ensures made { OnOk result (self.new ≡ record { places = self.old.places; tests = self.old.tests ++ test ∷ [] }) }
        ensures number { IfOk result (λ target. target ≡ Target.Test (length self.old.tests)) }
    {
        let number = self.tests.len();
        self.tests.push(test)?;
        Ok(Target::Test(number))
    }
}

/// Adds the tests of a pattern on the part at a place, which lead on to `holds` where it matches and else to `fails`, and
/// says where they begin.
#[cycle(pattern)]
#[tactic(auto, unfolding(typed_tree::specs::PatternView::pattern, typed_tree::specs::PatternView::pattern_form, typed_tree::specs::ViewLaws::field))]
pub(crate) fn add_pattern(
    alloc: Global,
    typed: &TypedPattern,
    place: usize,
    holds: Target,
    fails: Target,
    state: &mut State,
) -> Result<Target, Memory>
    ensures { IfOk result (λ entry. begun entry state.new ≡ made_of (pattern typed.now) place holds fails state.old) }
{
    match typed.form.get() {
        PatternForm::Wildcard | PatternForm::Bind | PatternForm::Constant(Literal::Unit) => {
            Ok(holds)
        }
        PatternForm::Constant(literal) => {
            let question = Question::Equals(part_of(alloc, literal)?);
            state.ask(Test {
                place,
                question,
                holds,
                fails,
            })
        }
        PatternForm::Present(inside) => {
            let part = state.place(Place::Inside(place))?;
            let holds = add_pattern(alloc, inside, part, holds, fails, state)?;
            state.ask(Test {
                place,
                question: Question::Present,
                holds,
                fails,
            })
        }
        PatternForm::Tagged(tag, payload) => {
            let part = state.place(Place::Payload(place))?;
            let holds = add_pattern(alloc, payload, part, holds, fails, state)?;
            let question = Question::Tag(Bytes::from_slice(alloc, tag.as_slice())?);
            state.ask(Test {
                place,
                question,
                holds,
                fails,
            })
        }
        PatternForm::Parts(parts) => {
            add_parts(alloc, parts.as_slice(), place, holds, fails, state)
        }
        PatternForm::Fields(fields) => {
            add_fields(alloc, fields.as_slice(), place, holds, fails, state)
        }
        PatternForm::Either(first, second) => {
            let second = add_pattern(alloc, second, place, holds, fails, state)?;
            add_pattern(alloc, first, place, holds, second, state)
        }
    }
}

// What is made last is tested first: so the last part.
#[cycle(pattern)]
fn add_parts(
    alloc: Global,
    parts: &[TypedPattern],
    place: usize,
    holds: Target,
    fails: Target,
    state: &mut State,
) -> Result<Target, Memory>
    ensures { IfOk result (λ entry. begun entry state.new ≡ parts_made (patterns parts.now) 0 place fails (begun holds state.old)) }
{
    let mut entry = holds;
    for (number, part) in parts.iter().enumerate() {
        let place = state.place(Place::Part(place, number))?;
        entry = add_pattern(alloc, part, place, entry, fails, state)?;
    }
    Ok(entry)
}

#[cycle(pattern)]
#[tactic(auto, unfolding(typed_tree::specs::PatternView::pattern, typed_tree::specs::ViewLaws::field))]
fn add_fields(
    alloc: Global,
    fields: &[PatternField],
    place: usize,
    holds: Target,
    fails: Target,
    state: &mut State,
) -> Result<Target, Memory>
    ensures { IfOk result (λ entry. begun entry state.new ≡ fields_made (labels_of fields.now) (pats (patterns_of fields.now)) place fails (begun holds state.old)) }
{
    let mut entry = holds;
    for field in fields {
        let label = Bytes::from_slice(alloc, field.label.as_slice())?;
        let place = state.place(Place::Field(place, label))?;
        entry = add_pattern(alloc, &field.pattern, place, entry, fails, state)?;
    }
    Ok(entry)
}
