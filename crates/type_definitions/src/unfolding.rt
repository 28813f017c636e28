//! What the uses of names stand for.
ghost use Rattle.std.specs.Prelude.{◌≡◌, IfOk};
ghost use Rattle.mo_types.specs.Sub.{Each};
ghost use Rattle.type_definitions.specs.Definitions.{Stand};
ghost use Rattle.type_definitions.specs.Outcomes.{AreOutcomes};
ghost use Rattle.type_definitions.specs.Tables.{Makes, Within};
ghost use Rattle.type_definitions.specs.Unfolding.{FindsUse, IsRightOf, IsUnfolded, UseLeadsTo};

use crate::chains::{Outcome, argument_at, outcome_at};
use crate::{Arguments, Definitions, put_in};
use mo_num::{Memory, Sequence};
use type_terms::{Form, TermId, Terms, copy_parts};

/// The right side of a definition with these arguments put in.
fn unfold_right(
    terms: &mut Terms,
    definitions: &Definitions,
    at: u32,
    arguments: &[TermId],
) -> Result<TermId, Memory>
    requires within { Each (Within terms.old) arguments.now }
    requires stand { Stand terms.old definitions.now }
    ensures { IfOk result (λ next. Makes terms.old (IsRightOf definitions.now at arguments.now next) next terms.new) }
{
    match definitions.find(at) {
        Some(definition) => {
            let arguments = Arguments {
                parameters: &definition.parameters,
                arguments,
                others_stay: false,
            };
            put_in(terms, &arguments, definition.right)
        }
        None => terms.intern(Form::Bottom),
    }
}

/// Where the use of a name leads, one step on.
fn unfold_use(
    terms: &mut Terms,
    definitions: &Definitions,
    outcomes: &[Outcome],
    at: u32,
    arguments: &[TermId],
) -> Result<TermId, Memory>
    requires within { Each (Within terms.old) arguments.now }
    requires stand { Stand terms.old definitions.now }
    requires outcomes { AreOutcomes terms.old definitions.now outcomes.now }
    ensures { IfOk result (λ next. Makes terms.old (UseLeadsTo definitions.now at arguments.now next) next terms.new) }
{
    match outcome_at(definitions.names(), outcomes, at) {
        Outcome::Endless => terms.intern(Form::Bottom),
        Outcome::Parameter(parameter) => {
            match argument_at(definitions.find(at), arguments, parameter) {
                Some(next) => Ok(next),
                None => terms.intern(Form::Bottom),
            }
        }
        Outcome::Form => unfold_right(terms, definitions, at, arguments),
    }
}

/// The use of a name and its arguments, where the type is one.
fn use_in(terms: &Terms, id: TermId) -> Result<Option<(u32, Sequence<TermId>)>, Memory>
    requires { Within terms.now id }
    ensures { IfOk result (λ found. FindsUse terms.now id found) }
{
    match terms.form(id) {
        Form::Use(at, arguments) => Ok(Some((
            *at,
            copy_parts(terms.allocator(), arguments.as_slice())?,
        ))),
        _ => Ok(None),
    }
}

/// The type that a type stands for, with its name, if it is one, followed: Motoko language manual, section "Type
/// declarations". What has no end is `None`.
pub fn unfold(
    terms: &mut Terms,
    definitions: &Definitions,
    outcomes: &[Outcome],
    id: TermId,
) -> Result<TermId, Memory>
    requires within { Within terms.old id }
    requires stand { Stand terms.old definitions.now }
    requires outcomes { AreOutcomes terms.old definitions.now outcomes.now }
    ensures { IfOk result (λ made. Makes terms.old (IsUnfolded definitions.now id made) made terms.new) }
{
    let mut id = id;
    for _turn in 0..u64::MAX {
        match use_in(terms, id)? {
            Some((at, arguments)) => {
                id = unfold_use(terms, definitions, outcomes, at, arguments.as_slice())?;
            }
            None => return Ok(id),
        }
    }
    Err(Memory)
}
