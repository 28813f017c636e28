//! The types of members of arrays and texts.
ghost use Rattle.std.specs.Prelude.{◌≡◌, [], IfOk};
ghost use Rattle.mo_scopes.specs.Scopes.{named};
ghost use Rattle.typing_rules.specs.Terms.{Term, nat};
ghost use Rattle.typing_rules.specs.Members as rules;
ghost use Rattle.type_definitions.specs.Tables.{Within};
ghost use Rattle.met_types.specs.States.{Kept};
ghost use Rattle.built_in_members.specs.Named.{array_names, text_names, value_member};
ghost use Rattle.built_in_members.specs.Written.{Writes, WritesFound, Written};

use crate::writing::{function, object, optional, plain};
use met_types::Types;
use mo_num::{Kind, Memory};
use type_terms::{Form, TermId};

/// A member of an array or a text.
#[derive(Clone, Copy)]
enum ValueMember {
    Size,
    Items,
    Keys,
}

fn array_named(name: &[u8]) -> Option<ValueMember>
    ensures { result ≡ named array_names name.now }
{
    if name == b"size".as_slice() {
        Some(ValueMember::Size)
    } else if name == b"vals".as_slice() {
        Some(ValueMember::Items)
    } else if name == b"keys".as_slice() {
        Some(ValueMember::Keys)
    } else {
        None
    }
}

fn text_named(name: &[u8]) -> Option<ValueMember>
    ensures { result ≡ named text_names name.now }
{
    if name == b"size".as_slice() {
        Some(ValueMember::Size)
    } else if name == b"chars".as_slice() {
        Some(ValueMember::Items)
    } else {
        None
    }
}

/// `() -> Nat`
#[tactic(auto, unfolding(type_terms::specs::Layouts::layout))]
fn counting(types: &mut Types) -> Result<TermId, Memory>
    requires { Kept types.old }
    ensures { IfOk result (λ id. Writes types.old (rules.function [] nat) id types.new) }
{
    let nat = plain(types, Form::Number(Kind::Nat))?;
    function(types, &[], nat)
}

/// `() -> {next : () -> ?T}`
fn iterating(types: &mut Types, item: TermId) -> Result<TermId, Memory>
    requires kept { Kept types.old }
    requires item { Within types.old.forms item }
    ensures { (u : Term) → Written types.old item u → IfOk result (λ id. Writes types.old (rules.function [] (rules.iterator u)) id types.new) }
{
    let found = optional(types, item)?;
    let next = function(types, &[], found)?;
    let iterator = object(types, b"next", next)?;
    function(types, &[], iterator)
}

/// `() -> {next : () -> ?Nat}`
#[tactic(auto, unfolding(type_terms::specs::Layouts::layout))]
fn iterating_numbers(types: &mut Types) -> Result<TermId, Memory>
    requires { Kept types.old }
    ensures { IfOk result (λ id. Writes types.old (rules.function [] (rules.iterator nat)) id types.new) }
{
    let item = plain(types, Form::Number(Kind::Nat))?;
    iterating(types, item)
}

fn member_kind(types: &mut Types, item: TermId, member: ValueMember) -> Result<TermId, Memory>
    requires kept { Kept types.old }
    requires item { Within types.old.forms item }
    ensures { (u : Term) → Written types.old item u → IfOk result (λ id. Writes types.old (value_member u member) id types.new) }
{
    match member {
        ValueMember::Size => counting(types),
        ValueMember::Items => iterating(types, item),
        ValueMember::Keys => iterating_numbers(types),
    }
}

/// The type of a member of an array, whose elements are of this type: Motoko language manual, section "Arrays".
pub fn array_member(
    types: &mut Types,
    element: TermId,
    name: &[u8],
) -> Result<Option<TermId>, Memory>
    requires kept { Kept types.old }
    requires element { Within types.old.forms element }
    ensures { (u : Term) → Written types.old element u → IfOk result (λ found. WritesFound types.old (named (rules.array_members u) name.now) found types.new) }
{
    match array_named(name) {
        Some(member) => Ok(Some(member_kind(types, element, member)?)),
        None => Ok(None),
    }
}

/// The type of a member of a text: Motoko language manual, section "Text".
#[tactic(auto, unfolding(type_terms::specs::Layouts::layout))]
pub fn text_member(types: &mut Types, name: &[u8]) -> Result<Option<TermId>, Memory>
    requires { Kept types.old }
    ensures { IfOk result (λ found. WritesFound types.old (named rules.text_members name.now) found types.new) }
{
    match text_named(name) {
        Some(member) => {
            let item = plain(types, Form::Character)?;
            Ok(Some(member_kind(types, item, member)?))
        }
        None => Ok(None),
    }
}
