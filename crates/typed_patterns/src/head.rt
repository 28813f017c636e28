//! The parts of a type that is met, by its head.
ghost use Rattle.std.specs.Prelude.{◌≡◌, Some, IfOk, map, nat_eq, slice_get};
ghost use Rattle.std.specs.Cmp.Lexicographic.{pointwise};
ghost use Rattle.std.specs.Option.{option_copied};
ghost use Rattle.mo_types.specs.Sub.{Each, find};
ghost use Rattle.met_types.specs.States.{IsNodeOf, IsReached, Kept};
ghost use Rattle.abstract_types.specs.TypeView.{named};
ghost use Rattle.type_judgements.specs.Judged.{Judged};
ghost use Rattle.proper_types.specs.Rules.{as_term, as_terms, done};
ghost use Rattle.typed_patterns.specs.Heads.{AreIn, field_part, is_object, literal_on, option_part, tag_part, tuple_parts, unit_on};

use crate::literal::literal_fault;
use abstract_types::PlacedName;
use met_types::Types;
use mo_num::Memory;
use mo_syntax::Literal;
use mo_types::{Field, Node, TypeId};
use std::alloc::Global;
use type_judgements::{Refusal, tests};
use type_terms::TermId;
use typing_rules::Condition;

/// The head of a type that is met.
fn head_of(types: &Types, kind: TermId) -> Result<&Node, Memory>
    requires kept { Kept types.now }
    ensures { IfOk result (λ head. IsNodeOf types.now kind head.now) }
{
    match types.node(kind) {
        Some(head) => Ok(head),
        None => Err(Memory),
    }
}

/// The term of a type of the graph.
fn term_of(types: &Types, id: TypeId) -> Result<TermId, Memory>
    ensures { IfOk result (λ made. slice_get types.now.reached id.index ≡ Some made) }
{
    match types.term_at(id) {
        Some(made) => Ok(made),
        None => Err(Memory),
    }
}

/// The terms of types of the graph.
fn terms_of(alloc: Global, types: &Types, ids: &[TypeId]) -> Result<Vec<TermId>, Memory>
    ensures { IfOk result (λ made. AreIn types.now ids.now made.items) }
{
    let mut made = Vec::with_capacity(alloc, ids.len())?;
    for id in ids {
        made.push(term_of(types, *id)?)?;
    }
    Ok(made)
}

fn is_same(one: &[u8], other: &[u8]) -> bool
    ensures { result ≡ pointwise nat_eq one.now other.now }
{
    one == other
}

/// Whether two labels are the same. A search asks it of each tag of a type. Labels that differ mostly differ in length or in the last byte,
/// which is seen in a few steps; what takes more stands in a function of its own, so that those need not prepare for it.
fn is_label(one: &[u8], other: &[u8]) -> bool
    ensures { result ≡ pointwise nat_eq one.now other.now }
{
    let size = one.len();
    if size != other.len() {
        return false;
    }
    if size > 0 && one[size - 1] != other[size - 1] {
        return false;
    }
    is_same(one, other)
}

/// The first field of the label.
fn field_of<'a>(fields: &'a [Field], label: &[u8]) -> Option<&'a Field>
    ensures { option_copied result ≡ find label.now fields.now }
{
    for field in fields {
        if is_label(field.label.as_slice(), label) {
            return Some(field);
        }
    }
    None
}

/// The `T` of a type `?T`.
pub(crate) fn option_part(types: &Types, at: u32, kind: TermId) -> Result<TermId, Refusal>
    requires kept { Kept types.now }
    ensures reached { IfOk result (IsReached types.now) }
    ensures judged { Judged (option_part at kind types.now.listed) types.now types.now as_term result }
{
    let head = head_of(types, kind)?;
    match head.opt_of() {
        Some(part) => Ok(term_of(types, *part)?),
        None => Err(Refusal::False(at, Condition::PatternType)),
    }
}

/// The type of a tag of a variant type.
pub(crate) fn tag_part(types: &Types, at: u32, kind: TermId, name: &[u8]) -> Result<TermId, Refusal>
    requires kept { Kept types.now }
    ensures reached { IfOk result (IsReached types.now) }
    ensures judged { Judged (tag_part at kind name.now types.now.listed) types.now types.now as_term result }
{
    let head = head_of(types, kind)?;
    match head.variant_of() {
        Some(tags) => match field_of(tags, name) {
            Some(tag) => Ok(term_of(types, tag.part)?),
            None => Err(Refusal::False(at, Condition::PatternType)),
        },
        None => Err(Refusal::False(at, Condition::PatternType)),
    }
}

/// The condition at the place, that a type is `()`.
pub(crate) fn needs_unit(types: &Types, at: u32, kind: TermId) -> Result<(), Refusal>
    requires kept { Kept types.now }
    ensures { Judged (unit_on at kind types.now.listed) types.now types.now done result }
{
    let head = head_of(types, kind)?;
    match head.tuple_of() {
        Some(parts) => tests(Condition::PatternType, at, parts.is_empty()),
        None => Err(Refusal::False(at, Condition::PatternType)),
    }
}

/// The types of a tuple type.
pub(crate) fn tuple_parts(
    alloc: Global,
    types: &Types,
    at: u32,
    kind: TermId,
) -> Result<Vec<TermId>, Refusal>
    requires kept { Kept types.now }
    ensures reached { IfOk result (λ made. Each (IsReached types.now) made.items) }
    ensures judged { Judged (tuple_parts at kind types.now.listed) types.now types.now (λ made later. as_terms made.items later) result }
{
    let head = head_of(types, kind)?;
    match head.tuple_of() {
        Some(parts) => Ok(terms_of(alloc, types, parts)?),
        None => Err(Refusal::False(at, Condition::PatternType)),
    }
}

/// The condition at the place, that a type is that of objects.
pub(crate) fn needs_object(types: &Types, at: u32, kind: TermId) -> Result<(), Refusal>
    requires kept { Kept types.now }
    ensures { Judged (is_object at kind types.now.listed) types.now types.now done result }
{
    let head = head_of(types, kind)?;
    tests(Condition::PatternType, at, head.object_of().is_some())
}

/// The type of a field of an object type, which is no `var` field.
pub(crate) fn field_part(types: &Types, kind: TermId, name: &PlacedName) -> Result<TermId, Refusal>
    requires kept { Kept types.now }
    ensures reached { IfOk result (IsReached types.now) }
    ensures judged { Judged (field_part kind (named name.now) types.now.listed) types.now types.now as_term result }
{
    let head = head_of(types, kind)?;
    match head.object_of() {
        Some(fields) => match field_of(fields, name.bytes.as_slice()) {
            Some(field) => {
                if field.mutable {
                    Err(Refusal::False(name.at, Condition::PatternType))
                } else {
                    Ok(term_of(types, field.part)?)
                }
            }
            None => Err(Refusal::False(name.at, Condition::PatternType)),
        },
        None => Err(Refusal::False(name.at, Condition::PatternType)),
    }
}

/// Whether a literal, with `-` before it or not, stands on a type.
pub(crate) fn literal_on(
    types: &Types,
    at: u32,
    minus: bool,
    literal: &Literal,
    kind: TermId,
) -> Result<(), Refusal>
    requires kept { Kept types.now }
    ensures { Judged (literal_on at minus literal.now kind types.now.listed) types.now types.now done result }
{
    let head = head_of(types, kind)?;
    match literal_fault(head, minus, literal) {
        None => Ok(()),
        Some(condition) => Err(Refusal::False(at, condition)),
    }
}
