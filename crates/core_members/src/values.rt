//! Built-in functions as values.
ghost use Rattle.std.specs.Prelude.{◌≡◌, ◌++◌, ◌+◌, [], ◌∷◌, length, IfOk, OnOk};
ghost use Rattle.core_ir.specs.View.{expression};
ghost use Rattle.elaboration.specs.Members as members;
ghost use Rattle.core_members.specs.Seen.{seen_form, seen_group, seen_groups};

use crate::form::MemberForm;
use crate::groups::add_group;
use crate::next::{iterator, next};
use crate::operands::{names_and_parameters, sum};
use core_ir::{CoreBody, Expression, Group};
use core_layers::first_function;
use mo_num::{Memory, Sequence};
use mo_syntax::{Items, Place};
use std::alloc::Global;

// A group of one function without nodes of its own, which sees so many names.
fn small_group(
    alloc: Global,
    sees: u32,
    parameters: u32,
    body: Expression,
) -> Result<Group<CoreBody>, Memory>
    ensures { IfOk result (λ made. seen_group made ≡ members.small_group sees parameters (expression body)) }
{
    let mut bodies = Sequence::new(alloc);
    bodies.push(CoreBody {
        parameters,
        nodes: 0,
        expression: body,
    })?;
    Ok(Group { sees, bodies })
}

// The level at a place, or the outermost one where there is none.
fn level_at(levels: &[u32], place: usize) -> u32
    ensures first { place ≡ 0 → result ≡ members.first levels.now }
    ensures second { place ≡ 1 → result ≡ members.second levels.now }
{
    if place < levels.len() {
        levels[place]
    } else {
        0
    }
}

// The group of the function. What it holds stands in the names of these levels, among so many; the groups that its body makes are added.
fn own_group(
    alloc: Global,
    place: Place,
    form: MemberForm,
    names: u32,
    levels: &[u32],
    groups: &mut Sequence<Group<CoreBody>>,
) -> Result<Group<CoreBody>, Memory>
    ensures made { IfOk result (λ made. seen_group made ≡ members.own_group (seen_form form) names levels.now (length groups.old)) }
    ensures groups { OnOk result (seen_groups groups.new ≡ seen_groups groups.old ++ members.groups_in (seen_form form) names levels.now) }
{
    match form {
        MemberForm::Does(what, _holds, parameters) => {
            let all = sum(parameters, sum(1, names)?)?;
            let operands = names_and_parameters(alloc, all, levels, parameters)?;
            small_group(alloc, names, parameters, what.on(alloc, operands)?)
        }
        MemberForm::Calls(what, parameters) => {
            let operands = names_and_parameters(alloc, 0, &[], parameters)?;
            small_group(alloc, names, parameters, what.on(alloc, operands)?)
        }
        MemberForm::Iterates(over) => {
            let cell = sum(1, names)?;
            let sees = sum(1, cell)?;
            let body = next(alloc, place, over, sum(1, sees)?, level_at(levels, 0), cell)?;
            let number = add_group(groups, small_group(alloc, sees, 0, body)?)?;
            small_group(alloc, names, 0, iterator(alloc, place, number)?)
        }
        MemberForm::Steps(over) => {
            let whole = level_at(levels, 0);
            let cell = level_at(levels, 1);
            let body = next(alloc, place, over, sum(1, names)?, whole, cell)?;
            small_group(alloc, names, 0, body)
        }
    }
}

/// A function of this form as a value.
pub(crate) fn function_as(
    alloc: Global,
    place: Place,
    form: MemberForm,
    names: u32,
    levels: &[u32],
    groups: &mut Sequence<Group<CoreBody>>,
) -> Result<Expression, Memory>
    ensures made { IfOk result (λ made. expression made ≡ (members.function_of (seen_form form) names levels.now (length groups.old)).exp) }
    ensures groups { OnOk result (seen_groups groups.new ≡ seen_groups groups.old ++ (members.function_of (seen_form form) names levels.now (length groups.old)).groups) }
{
    let group = own_group(alloc, place, form, names, levels, groups)?;
    let number = add_group(groups, group)?;
    first_function(alloc, place, number)
}
