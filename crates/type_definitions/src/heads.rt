//! The heads of types.
ghost use Rattle.std.specs.Prelude.{◌≡◌, ◌∷◌, [], IfOk, slice_get, Some};
ghost use Rattle.mo_types.specs.Sub.{Each};
ghost use Rattle.type_terms.specs.Tables.{PartsBelow};
ghost use Rattle.type_definitions.specs.Definitions.{Stand};
ghost use Rattle.type_definitions.specs.Heads.{AreResults, IsBoundOf, IsHeadOf, IsShapeOf, MakesNode, parts_or_itself, plain_node};
ghost use Rattle.type_definitions.specs.Outcomes.{AreOutcomes};
ghost use Rattle.type_definitions.specs.Tables.{Makes, MakesList, Within};

use crate::{Definitions, Outcome, unfold};
use mo_num::{Memory, Sequence};
use mo_types::{Node, Sort};
use std::alloc::Global;
use type_terms::{Form, TermId, Terms, copy_fields, copy_parts};

/// A list of one term.
fn one(alloc: Global, part: TermId) -> Result<Sequence<TermId>, Memory>
    ensures { IfOk result (λ made. made ≡ part ∷ []) }
{
    let mut made = Vec::with_capacity(alloc, 1)?;
    made.push(part)?;
    Ok(Sequence::from_vec(made))
}

/// The head of a form that is neither a shared function nor a parameter.
fn plain(alloc: Global, form: &Form) -> Result<Node<TermId>, Memory>
    ensures { IfOk result (λ made. made ≡ plain_node form.now) }
{
    Ok(match form {
        Form::Number(kind) => Node::Number(*kind),
        Form::Boolean => Node::Bool,
        Form::Character => Node::Char,
        Form::Text => Node::Text,
        Form::Blob => Node::Blob,
        Form::Principal => Node::Principal,
        Form::Error => Node::Error,
        Form::Null => Node::Null,
        Form::Any => Node::Any,
        Form::Optional(part) => Node::Opt(*part),
        Form::Array(part) => Node::Array(*part),
        Form::MutableArray(part) => Node::MutArray(*part),
        Form::Tuple(parts) => Node::Tuple(copy_parts(alloc, parts.as_slice())?),
        Form::Object(fields) => Node::Object(copy_fields(alloc, fields.as_slice())?),
        Form::Actor(methods) => Node::Actor(copy_fields(alloc, methods.as_slice())?),
        Form::Variant(tags) => Node::Variant(copy_fields(alloc, tags.as_slice())?),
        Form::Function(parameters, part) => Node::Func(
            Sort::Local,
            copy_parts(alloc, parameters.as_slice())?,
            one(alloc, *part)?,
        ),
        Form::Async(part) => Node::Async(*part),
        _ => Node::Bottom,
    })
}

/// The parts of a tuple, or the type itself.
fn parts_or_itself(alloc: Global, form: &Form, id: TermId) -> Result<Sequence<TermId>, Memory>
    ensures { IfOk result (λ made. made ≡ parts_or_itself form.now id) }
{
    match form {
        Form::Tuple(parts) => copy_parts(alloc, parts.as_slice()),
        _ => one(alloc, id),
    }
}

/// The results of a shared function: the parts of its tuple, or its one result.
fn results(
    terms: &mut Terms,
    definitions: &Definitions,
    outcomes: &[Outcome],
    part: TermId,
) -> Result<Sequence<TermId>, Memory>
    requires within { Within terms.old part }
    requires stand { Stand terms.old definitions.now }
    requires outcomes { AreOutcomes terms.old definitions.now outcomes.now }
    ensures { IfOk result (λ made. MakesList terms.old (AreResults definitions.now part made) made terms.new) }
{
    let tuple = unfold(terms, definitions, outcomes, part)?;
    parts_or_itself(terms.allocator(), terms.form(tuple), part)
}

/// The bound of a parameter.
fn bound(terms: &mut Terms, definitions: &Definitions, at: u32) -> Result<TermId, Memory>
    requires { Stand terms.old definitions.now }
    ensures { IfOk result (λ made. Makes terms.old (IsBoundOf definitions.now at made) made terms.new) }
{
    match definitions.bound(at) {
        Some(bound) => Ok(bound),
        None => terms.intern(Form::Any),
    }
}

/// The head of a form of the table.
fn shape(
    terms: &mut Terms,
    definitions: &Definitions,
    outcomes: &[Outcome],
    id: TermId,
    form: &Form,
) -> Result<Node<TermId>, Memory>
    requires within { Within terms.old id }
    requires there { slice_get terms.old id.index ≡ Some form.now }
    requires below { PartsBelow id.index form.now }
    requires stand { Stand terms.old definitions.now }
    requires outcomes { AreOutcomes terms.old definitions.now outcomes.now }
    ensures { IfOk result (λ made. MakesNode terms.old (IsShapeOf definitions.now id made) made terms.new) }
{
    match form {
        Form::Shared(sort, parameters, part) => {
            let parameters = copy_parts(terms.allocator(), parameters.as_slice())?;
            let results = results(terms, definitions, outcomes, *part)?;
            Ok(Node::Func(*sort, parameters, results))
        }
        Form::Parameter(at) => {
            let bound = bound(terms, definitions, *at)?;
            Ok(Node::Variable(*at, bound))
        }
        _ => plain(terms.allocator(), form),
    }
}

/// The head of a type, with the types of its parts.
pub fn head(
    terms: &mut Terms,
    definitions: &Definitions,
    outcomes: &[Outcome],
    id: TermId,
) -> Result<Node<TermId>, Memory>
    requires within { Within terms.old id }
    requires stand { Stand terms.old definitions.now }
    requires outcomes { AreOutcomes terms.old definitions.now outcomes.now }
    ensures { IfOk result (λ made. MakesNode terms.old (IsHeadOf definitions.now id made) made terms.new) }
{
    let itself = unfold(terms, definitions, outcomes, id)?;
    let form = terms.form(itself).copy(terms.allocator())?;
    shape(terms, definitions, outcomes, itself, &form)
}
