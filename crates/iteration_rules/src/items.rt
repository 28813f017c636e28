//! What `for` goes over.
ghost use Rattle.std.specs.Prelude.{◌≡◌, IfOk, IfSome, None, Some, cond, option_map};
ghost use Rattle.std.specs.Option.{option_and_then};
ghost use Rattle.type_definitions.specs.Meanings.{term};
ghost use Rattle.met_types.specs.States.{IsReached, Kept};
ghost use Rattle.judging.specs.Heads.{HeadHas, part_in};
ghost use Rattle.member_heads.specs.Members.{MembersHave};
ghost use Rattle.iteration_rules.specs.Items.{Finds, NextGives, constant_part, given_of, item_in, items_in, nothing_of, one_result, unless_variable};

use judging::option_part;
use member_heads::object_field;
use met_types::Types;
use mo_num::Memory;
use mo_types::{Node, Sort, TypeId};
use type_terms::{Form, TermId};

fn unless_variable(field: Option<(bool, TermId)>) -> Option<TermId>
    ensures { result ≡ option_and_then unless_variable field }
{
    match field {
        Some((mutable, part)) => { if mutable { None } else { Some(part) } }
        None => None,
    }
}

/// The type of a field of this label, where it is no `var` field.
fn constant_part(types: &Types, id: TermId, label: &[u8]) -> Option<TermId>
    requires kept { Kept types.now }
    requires reached { IsReached types.now id }
    ensures is { MembersHave (constant_part label.now) types.now id (λ later. option_map (term later) result) }
    ensures reached { IfSome result (IsReached types.now) }
{
    unless_variable(object_field(types, id, label))
}

fn one_result(parameters: &[TypeId], results: &[TypeId]) -> Option<TypeId>
    ensures { result ≡ one_result parameters.now results.now }
{
    if parameters.is_empty() && results.len() == 1 {
        Some(results[0])
    } else {
        None
    }
}

fn given_at(node: &Node) -> Option<TypeId>
    ensures { result ≡ given_of node.now }
{
    match node {
        Node::Func(Sort::Local, parameters, results) => {
            one_result(parameters.as_slice(), results.as_slice())
        }
        _ => None,
    }
}

/// The term of a type of the graph, where there is one.
fn part_in(types: &Types, part: Option<TypeId>) -> Option<TermId>
    ensures { result ≡ part_in types.now part }
{
    match part {
        Some(part) => types.term_at(part),
        None => None,
    }
}

/// The type A of `() -> A`.
fn given_part(types: &Types, id: TermId) -> Option<TermId>
    requires kept { Kept types.now }
    requires reached { IsReached types.now id }
    ensures is { HeadHas given_of types.now id (λ later. option_map (term later) result) }
    ensures reached { IfSome result (IsReached types.now) }
{
    match types.node(id) {
        Some(node) => part_in(types, given_at(node)),
        None => None,
    }
}

/// What `next` gives, where values of this type have such a function without parameters.
fn next_given(types: &Types, id: TermId) -> Option<TermId>
    requires kept { Kept types.now }
    requires reached { IsReached types.now id }
    ensures is { NextGives types.now id result }
    ensures reached { IfSome result (IsReached types.now) }
{
    match constant_part(types, id, b"next") {
        Some(next) => given_part(types, next),
        None => None,
    }
}

fn is_nothing_at(node: &Node) -> bool
    ensures { nothing_of node.now ≡ cond result (Some tt) None }
{
    match node {
        Node::Null => true,
        Node::Bottom => true,
        _ => false,
    }
}

/// Whether a type is `Null` or `None`, which are options of nothing.
fn is_nothing(types: &Types, id: TermId) -> bool
    requires kept { Kept types.now }
    requires reached { IsReached types.now id }
    ensures { HeadHas nothing_of types.now id (λ later. cond result (Some tt) None) }
{
    match types.node(id) {
        Some(node) => is_nothing_at(node),
        None => false,
    }
}

/// The type of what options of this type hold, where they are such.
fn item(types: &mut Types, id: TermId) -> Result<Option<TermId>, Memory>
    requires kept { Kept types.old }
    requires reached { IsReached types.old id }
    ensures { IfOk result (λ found. Finds types.old (item_in id) found types.new) }
{
    match option_part(types, id) {
        Some(part) => Ok(Some(part)),
        None => {
            if is_nothing(types, id) {
                let bottom = types.intern(Form::Bottom)?;
                Ok(Some(bottom))
            } else {
                Ok(None)
            }
        }
    }
}

/// The type T of what `for` goes over, where values of this type have a function `next : () -> ?T` that is no `var` field.
pub(crate) fn items(types: &mut Types, id: TermId) -> Result<Option<TermId>, Memory>
    requires kept { Kept types.old }
    requires reached { IsReached types.old id }
    ensures { IfOk result (λ found. Finds types.old (items_in id) found types.new) }
{
    match next_given(types, id) {
        Some(given) => item(types, given),
        None => Ok(None),
    }
}
