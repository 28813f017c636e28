//! Definitions that keep to their parameters.
ghost use Rattle.std.specs.Prelude.{◌≡◌, ◌<◌, length, slice_get, IfOk};
ghost use Rattle.mo_types.specs.Sub.{Each};
ghost use Rattle.type_definitions.specs.Definitions.{Stand};
ghost use Rattle.definition_rules.specs.Uses.{AreOwn, Keeps, KeepsParameters, MayUse, UsesAsOwn, is_parameter};

use crate::groups::{leads_to, types_within};
use mo_num::Memory;
use type_definitions::Definitions;
use type_terms::{Form, TermId, Terms};

/// Whether a type is the parameter of this number.
fn is_parameter(terms: &Terms, id: TermId, number: u32) -> bool
    requires { id.index < length terms.now }
    ensures { result ≡ is_parameter (slice_get terms.now id.index) number }
{
    match terms.form(id) {
        Form::Parameter(at) => *at == number,
        _ => false,
    }
}

/// Whether the arguments are these parameters, in their order.
fn are_own(terms: &Terms, own: &[u32], arguments: &[TermId]) -> bool
    requires { Each (λ a. a.index < length terms.now) arguments.now }
    ensures { AreOwn terms.now own.now arguments.now result }
{
    if own.len() != arguments.len() {
        return false;
    }
    for i in 0..own.len() {
        if !is_parameter(terms, arguments[i], own[i]) {
            return false;
        }
    }
    true
}

/// Whether a definition of this name, with these parameters, uses that name as it may: at its parameters, where that name
/// leads back to its own.
fn uses_as_own(
    terms: &Terms,
    definitions: &Definitions,
    name: u32,
    own: &[u32],
    at: u32,
    arguments: &[TermId],
) -> Result<bool, Memory>
    requires stand { Stand terms.now definitions.now }
    requires within { Each (λ a. a.index < length terms.now) arguments.now }
    ensures { IfOk result (UsesAsOwn definitions.now terms.now name own.now at arguments.now) }
{
    if are_own(terms, own, arguments) {
        return Ok(true);
    }
    match definitions.find(at) {
        Some(used) => Ok(!leads_to(terms, definitions, used.right, name)?),
        None => Ok(true),
    }
}

/// The same of a type, if it is a use.
fn may_use(
    terms: &Terms,
    definitions: &Definitions,
    name: u32,
    own: &[u32],
    id: TermId,
) -> Result<bool, Memory>
    requires stand { Stand terms.now definitions.now }
    requires within { id.index < length terms.now }
    ensures { IfOk result (MayUse definitions.now terms.now name own.now (slice_get terms.now id.index)) }
{
    match terms.form(id) {
        Form::Use(at, arguments) => {
            uses_as_own(terms, definitions, name, own, *at, arguments.as_slice())
        }
        _ => Ok(true),
    }
}

/// Whether a definition of this name, with these parameters and this right side, keeps to its parameters.
fn keeps(
    terms: &Terms,
    definitions: &Definitions,
    name: u32,
    own: &[u32],
    right: TermId,
) -> Result<bool, Memory>
    requires stand { Stand terms.now definitions.now }
    requires within { right.index < length terms.now }
    ensures { IfOk result (Keeps definitions.now terms.now name own.now right) }
{
    let found = types_within(terms, right)?;
    for id in found.as_slice() {
        if !may_use(terms, definitions, name, own, *id)? {
            return Ok(false);
        }
    }
    Ok(true)
}

/// Whether the definition of a name uses names of its group at its own parameters only: Motoko language manual, section
/// "Type declarations".
pub fn keeps_parameters(terms: &Terms, definitions: &Definitions, name: u32) -> Result<bool, Memory>
    requires { Stand terms.now definitions.now }
    ensures { IfOk result (KeepsParameters definitions.now terms.now name) }
{
    match definitions.find(name) {
        Some(definition) => keeps(
            terms,
            definitions,
            name,
            definition.parameters.as_slice(),
            definition.right,
        ),
        None => Ok(true),
    }
}
