//! What definitions need.
ghost use Rattle.std.specs.Prelude.{◌≡◌, ◌<◌, length, IfOk, IsTrue};
ghost use Rattle.mo_types.specs.Heads.{map_option};
ghost use Rattle.type_definitions.specs.Definitions.{Stand};
ghost use Rattle.type_definitions.specs.Outcomes.{or_endless};
ghost use Rattle.shareable_types.specs.Settled.{AreCovered, AreNothing, IsRound, NeedIn};

use crate::forms::know;
use crate::needs::Needs;
use mo_num::Memory;
use std::alloc::Global;
use type_definitions::{Definition, Definitions, Outcome};
use type_terms::Terms;

/// Nothing for each of so many definitions.
pub(crate) fn nothing_needed(alloc: Global, number: usize) -> Result<Vec<Needs>, Memory>
    ensures { IfOk result (λ made. (length made.items ≡ number) × AreNothing made.items) }
{
    let mut made = Vec::with_capacity(alloc, number)?;
    for _i in 0..number {
        made.push(Needs::nothing(alloc))?;
    }
    Ok(made)
}

/// What a definition needs, by what it leads to.
fn of_definition(
    alloc: Global,
    outcome: Option<&Outcome>,
    definition: &Definition,
    known: &[Needs],
) -> Result<Needs, Memory>
    requires { definition.now.right.index < length known.now }
    ensures { IfOk result (λ made. NeedIn known.now (or_endless (map_option (λ o. o.now) outcome.entry)) definition.now made) }
{
    match outcome {
        Some(Outcome::Parameter(parameter)) => Needs::parameter(alloc, *parameter),
        Some(Outcome::Form) => known[definition.right.index() as usize].copy(alloc),
        _ => Ok(Needs::nothing(alloc)),
    }
}

/// What each definition needs, where these need what is there.
pub(crate) fn round(
    any: bool,
    terms: &Terms,
    definitions: &Definitions,
    outcomes: &[Outcome],
    needed: &[Needs],
) -> Result<Vec<Needs>, Memory>
    requires { Stand terms.now definitions.now }
    ensures { IfOk result (λ made. IsRound any definitions.now needed.now terms.now outcomes.now made.items) }
{
    let alloc = terms.allocator();
    let mut known = Vec::new(alloc);
    know(&mut known, any, terms, definitions, needed, terms.len())?;
    let types = definitions.types();
    let mut made = Vec::with_capacity(alloc, types.len())?;
    for i in 0..types.len() {
        made.push(of_definition(alloc, outcomes.get(i), &types[i], known.as_slice())?)?;
    }
    Ok(made)
}

/// Whether each of the one list covers that of the other.
pub(crate) fn all_cover(needed: &[Needs], made: &[Needs]) -> bool
    requires { length needed.now ≡ length made.now }
    ensures { IsTrue result → AreCovered needed.now made.now }
{
    for i in 0..made.len() {
        if !needed[i].covers(&made[i]) {
            return false;
        }
    }
    true
}
