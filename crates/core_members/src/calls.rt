//! Calls of built-in functions.
ghost use Rattle.std.specs.Prelude.{◌≡◌, ◌≤◌, ◌++◌, ◌+◌, ◌-◌, map, length, IfOk, OnOk};
ghost use Rattle.core_ir.specs.Expressions as tree;
ghost use Rattle.core_ir.specs.View.{exps, expression};
ghost use Rattle.elaboration.specs.Members as members;
ghost use Rattle.elaboration.specs.Scopes as scopes;
ghost use Rattle.core_members.specs.Seen.{called_as, seen_doing, seen_form, seen_groups, value_as};

use crate::form::{Doing, MemberForm, form_of};
use crate::operands::{bound, sum};
use crate::values::function_as;
use core_ir::{CoreBody, Expression, Goal, Group};
use core_layers::{Fails, around};
use mo_num::{Memory, Sequence};
use mo_syntax::{Items, Place};
use std::alloc::Global;
use typed_tree::Member;

// The second operands behind the first ones.
fn joined(first: Items<Expression>, second: Vec<Expression>) -> Result<Items<Expression>, Memory>
    ensures { IfOk result (λ made. made ≡ first ++ second.items) }
{
    let mut all = first;
    for operand in second {
        all.push(operand)?;
    }
    Ok(all)
}

// What is done with the values of both.
fn done_at_once(
    alloc: Global,
    what: Doing,
    holds: Vec<Expression>,
    arguments: Vec<Expression>,
) -> Result<Expression, Memory>
    ensures { IfOk result (λ made. expression made ≡ tree.Do (seen_doing what) (scopes.append (exps (map expression holds.items)) (exps (map expression arguments.items)))) }
{
    let first = joined(Items::new(alloc), holds)?;
    what.on(alloc, joined(first, arguments)?)
}

// So many levels.
fn levels_from(alloc: Global, level: u32, end: u32) -> Result<Vec<u32>, Memory>
    requires { level ≤ end }
    ensures { IfOk result (λ levels. levels.items ≡ members.levels_from level (end - level)) }
{
    let mut levels = Vec::new(alloc);
    for next in level..end {
        levels.push(next)?;
    }
    Ok(levels)
}

// The function behind the values that it holds, under so many names.
fn value_as(
    alloc: Global,
    place: Place,
    form: MemberForm,
    holds: Vec<Expression>,
    names: u32,
    groups: &mut Sequence<Group<CoreBody>>,
) -> Result<Expression, Memory>
    ensures made { IfOk result (λ made. expression made ≡ (value_as (seen_form form) (exps (map expression holds.items)) names (length groups.old)).exp) }
    ensures groups { OnOk result (seen_groups groups.new ≡ seen_groups groups.old ++ (value_as (seen_form form) (exps (map expression holds.items)) names (length groups.old)).groups) }
{
    let all = sum(amount(holds.as_slice())?, names)?;
    let levels = levels_from(alloc, names, all)?;
    let function = function_as(alloc, place, form, all, levels.as_slice(), groups)?;
    around(alloc, place, bound(alloc, holds)?, Fails::Traps, function)
}

// The function is made behind the values that it holds, and called.
#[tactic(auto, unfolding(core_ir::specs::View::expression, core_ir::specs::View::goal))]
fn called_as(
    alloc: Global,
    place: Place,
    form: MemberForm,
    holds: Vec<Expression>,
    arguments: Vec<Expression>,
    names: u32,
    groups: &mut Sequence<Group<CoreBody>>,
) -> Result<Expression, Memory>
    ensures made { IfOk result (λ made. expression made ≡ (called_as (seen_form form) (exps (map expression holds.items)) (exps (map expression arguments.items)) names (length groups.old)).exp) }
    ensures groups { OnOk result (seen_groups groups.new ≡ seen_groups groups.old ++ (called_as (seen_form form) (exps (map expression holds.items)) (exps (map expression arguments.items)) names (length groups.old)).groups) }
{
    let function = value_as(alloc, place, form, holds, names, groups)?;
    let mut operands = Items::new(alloc);
    operands.push(function)?;
    Ok(Expression::Do(Goal::Call, joined(operands, arguments)?))
}

// How many there are.
fn amount(operands: &[Expression]) -> Result<u32, Memory>
    ensures { IfOk result (λ count. count ≡ members.amount (exps (map expression operands.now))) }
{
    match u32::try_from(operands.len()) {
        Ok(count) => Ok(count),
        Err(_) => Err(Memory),
    }
}

/// A call of a built-in function that holds the values of the first operands, with the values of the second ones; under so many
/// names.
pub fn called(
    alloc: Global,
    place: Place,
    member: Member,
    holds: Vec<Expression>,
    arguments: Vec<Expression>,
    names: u32,
    groups: &mut Sequence<Group<CoreBody>>,
) -> Result<Expression, Memory>
    ensures made { IfOk result (λ made. expression made ≡ (members.called (members.form_of member) (exps (map expression holds.items)) (exps (map expression arguments.items)) names (length groups.old)).exp) }
    ensures groups { OnOk result (seen_groups groups.new ≡ seen_groups groups.old ++ (members.called (members.form_of member) (exps (map expression holds.items)) (exps (map expression arguments.items)) names (length groups.old)).groups) }
{
    match form_of(member) {
        MemberForm::Does(what, _, _) => done_at_once(alloc, what, holds, arguments),
        MemberForm::Calls(what, parameters) => {
            let form = MemberForm::Calls(what, parameters);
            called_as(alloc, place, form, holds, arguments, names, groups)
        }
        MemberForm::Iterates(over) => {
            let form = MemberForm::Iterates(over);
            called_as(alloc, place, form, holds, arguments, names, groups)
        }
        MemberForm::Steps(over) => {
            let form = MemberForm::Steps(over);
            called_as(alloc, place, form, holds, arguments, names, groups)
        }
    }
}

/// A built-in function as a value that holds those of the operands, under so many names.
pub fn value_of(
    alloc: Global,
    place: Place,
    member: Member,
    holds: Vec<Expression>,
    names: u32,
    groups: &mut Sequence<Group<CoreBody>>,
) -> Result<Expression, Memory>
    ensures made { IfOk result (λ made. expression made ≡ (value_as (members.form_of member) (exps (map expression holds.items)) names (length groups.old)).exp) }
    ensures groups { OnOk result (seen_groups groups.new ≡ seen_groups groups.old ++ (value_as (members.form_of member) (exps (map expression holds.items)) names (length groups.old)).groups) }
{
    value_as(alloc, place, form_of(member), holds, names, groups)
}
