//! What definitions lead to.
ghost use Rattle.std.specs.Prelude.{◌≡◌, ◌<◌, IfOk, IsTrue, length};
ghost use Rattle.mo_types.specs.Heads.{map_option};
ghost use Rattle.type_definitions.specs.Definitions.{Stand};
ghost use Rattle.type_definitions.specs.Outcomes.{AreOutcomes, Follows, IsRound, IsStepOf, argument_in, outcome_at};
ghost use Rattle.type_definitions.specs.Tables.{Within};

use crate::{Definition, Definitions, Numbers};
use mo_num::Memory;
use std::alloc::Global;
use type_terms::{Form, TermId, Terms};

/// What a definition leads to, followed through further ones: Motoko language manual, section "Type declarations".
#[derive(Clone, Copy, Debug)]
pub enum Outcome {
    /// To no type: names lead on without end.
    Endless,
    /// To the parameter of this number.
    Parameter(u32),
    /// To a type that is neither a use of a name nor a parameter.
    Form,
}

/// What follows from a type: its outcome, or another type that leads to the same.
#[derive(Clone, Copy)]
pub(crate) enum Step {
    Done(Outcome),
    Next(TermId),
}

/// The outcome of a name.
pub fn outcome_at(names: &Numbers, outcomes: &[Outcome], at: u32) -> Outcome
    ensures { result ≡ outcome_at names.now outcomes.now at }
{
    match names.find(at) {
        Some(place) => match outcomes.get(place) {
            Some(outcome) => *outcome,
            None => Outcome::Endless,
        },
        None => Outcome::Endless,
    }
}

/// The argument that stands in the place of a parameter of a definition.
pub(crate) fn argument_at(
    definition: Option<&Definition>,
    arguments: &[TermId],
    parameter: u32,
) -> Option<TermId>
    ensures { result ≡ argument_in (map_option (λ d. d.now) definition.entry) arguments.now parameter }
{
    match definition {
        Some(definition) => match definition.parameters.find(parameter) {
            Some(place) => arguments.get(place).copied(),
            None => None,
        },
        None => None,
    }
}

/// One step from a type on.
fn step_from(terms: &Terms, definitions: &Definitions, outcomes: &[Outcome], id: TermId) -> Step
    requires { Within terms.now id }
    ensures { IsStepOf terms.now definitions.now outcomes.now id result }
{
    match terms.form(id) {
        Form::Use(at, arguments) => match outcome_at(definitions.names(), outcomes, *at) {
            Outcome::Endless => Step::Done(Outcome::Endless),
            Outcome::Form => Step::Done(Outcome::Form),
            Outcome::Parameter(parameter) => {
                match argument_at(definitions.find(*at), arguments.as_slice(), parameter) {
                    Some(next) => Step::Next(next),
                    None => Step::Done(Outcome::Form),
                }
            }
        },
        Form::Parameter(at) => Step::Done(Outcome::Parameter(*at)),
        _ => Step::Done(Outcome::Form),
    }
}

/// The outcome of a type, where these are the outcomes of definitions.
fn follow(terms: &Terms, definitions: &Definitions, outcomes: &[Outcome], id: TermId) -> Outcome
    requires { Within terms.now id }
    ensures { Follows terms.now definitions.now outcomes.now id result }
{
    let mut id = id;
    loop {
        match step_from(terms, definitions, outcomes, id) {
            Step::Done(outcome) => return outcome,
            Step::Next(next) => id = next,
        }
    }
}

/// The outcomes of all definitions within one more of them.
fn round(
    alloc: Global,
    terms: &Terms,
    definitions: &Definitions,
    outcomes: &[Outcome],
) -> Result<Vec<Outcome>, Memory>
    requires { Stand terms.now definitions.now }
    ensures { IfOk result (λ made. IsRound terms.now definitions.now outcomes.now made.items) }
{
    let mut made = Vec::with_capacity(alloc, definitions.types().len())?;
    for definition in definitions.types() {
        made.push(follow(terms, definitions, outcomes, definition.right))?;
    }
    Ok(made)
}

fn is_same(a: Outcome, b: Outcome) -> bool
    ensures { IsTrue result → a ≡ b }
{
    match (a, b) {
        (Outcome::Endless, Outcome::Endless) => true,
        (Outcome::Parameter(m), Outcome::Parameter(n)) => m == n,
        (Outcome::Form, Outcome::Form) => true,
        _ => false,
    }
}

/// Whether both lists are the same.
fn are_same(a: &[Outcome], b: &[Outcome]) -> bool
    ensures { IsTrue result → a.now ≡ b.now }
{
    if a.len() != b.len() {
        return false;
    }
    for i in 0..a.len() {
        if !is_same(a[i], b[i]) {
            return false;
        }
    }
    true
}

/// What each definition leads to. Takes as many rounds over the definitions as the longest chain of names is long.
pub fn outcomes(
    alloc: Global,
    terms: &Terms,
    definitions: &Definitions,
) -> Result<Vec<Outcome>, Memory>
    requires { Stand terms.now definitions.now }
    ensures { IfOk result (λ made. AreOutcomes terms.now definitions.now made.items) }
{
    let mut known = Vec::new(alloc);
    for _turn in 0..definitions.types().len() {
        let next = round(alloc, terms, definitions, known.as_slice())?;
        if are_same(next.as_slice(), known.as_slice()) {
            return Ok(known);
        }
        known = next;
    }
    round(alloc, terms, definitions, known.as_slice())
}
