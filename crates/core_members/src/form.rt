//! What a built-in function does.
ghost use Rattle.std.specs.Prelude.{◌≡◌, map, IfOk};
ghost use Rattle.core_ir.specs.Expressions as tree;
ghost use Rattle.core_ir.specs.View.{exps, expression};
ghost use Rattle.elaboration.specs.Members as members;
ghost use Rattle.core_members.specs.Seen.{seen_doing, seen_form};

use core_ir::{Expression, Goal, Primitive, Shared};
use mo_num::{Kind, Memory};
use mo_syntax::Items;
use mo_values::Operation;
use std::alloc::Global;
use typed_tree::Member;

/// What is done with values.
#[derive(Drop)]
pub(crate) enum Doing {
    Operates(Primitive),
    Tabulates,
}

/// What an iterator goes over.
#[derive(Clone, Copy, Debug, PartialEq, Eq)]
pub(crate) enum Over {
    /// The elements of an array.
    Elements,
    /// The places of an array.
    Places,
    /// The characters of a text.
    Characters,
}

/// A built-in function.
#[derive(Drop)]
pub(crate) enum MemberForm {
    /// It does this with the values that it holds, so many, and so many arguments, also in the place of a call.
    Does(Doing, u32, u32),
    /// It does this with so many arguments, and is called.
    Calls(Doing, u32),
    /// It gives an iterator over the value that it holds.
    Iterates(Over),
    /// It is `next` of an iterator, and holds what that goes over and the cell with the place.
    Steps(Over),
}

impl Doing {
    /// On these operands.
    #[tactic(auto, unfolding(core_ir::specs::View::expression, core_ir::specs::View::goal))]
    pub(crate) fn on(self, alloc: Global, operands: Items<Expression>) -> Result<Expression, Memory>
        ensures { IfOk result (λ made. expression made ≡ tree.Do (seen_doing self) (exps (map expression operands))) }
    {
        match self {
            Doing::Operates(what) => {
                let what = Shared::new(alloc, what)?;
                Ok(Expression::Do(Goal::Operate(what), operands))
            }
            Doing::Tabulates => Ok(Expression::Do(Goal::Tabulate, operands)),
        }
    }
}

// One operation.
fn operates(what: Operation, holds: u32, parameters: u32) -> MemberForm
    ensures { seen_form result ≡ members.operates what holds parameters }
{
    MemberForm::Does(Doing::Operates(Primitive::Operate(what)), holds, parameters)
}

// One primitive that is called.
fn calls(what: Primitive, parameters: u32) -> MemberForm
    ensures { seen_form result ≡ members.Calls (tree.Operate what) parameters }
{
    MemberForm::Calls(Doing::Operates(what), parameters)
}

/// What it does.
pub(crate) fn form_of(member: Member) -> MemberForm
    ensures { seen_form result ≡ members.form_of member }
{
    match member {
        Member::DebugPrint => MemberForm::Does(Doing::Operates(Primitive::Print), 0, 1),
        Member::DebugTrap => operates(Operation::Trap, 0, 1),
        Member::ErrorReject => operates(Operation::RejectError, 0, 1),
        Member::ErrorMessage => operates(Operation::Message, 0, 1),
        Member::ErrorCode => operates(Operation::Code, 0, 1),
        Member::NatToText => operates(Operation::ToText(Kind::Nat), 0, 1),
        Member::IntToText => operates(Operation::ToText(Kind::Int), 0, 1),
        Member::ArrayTabulate => MemberForm::Calls(Doing::Tabulates, 2),
        Member::ArrayInit => calls(Primitive::ArrayInit, 2),
        Member::ArrayFreeze => calls(Primitive::ArrayFreeze, 1),
        Member::ArrayThaw => calls(Primitive::ArrayThaw, 1),
        Member::PrincipalFromActor => operates(Operation::PrincipalOf, 0, 1),
        Member::ArraySize => operates(Operation::ArraySize, 1, 0),
        Member::ArrayVals => MemberForm::Iterates(Over::Elements),
        Member::ArrayKeys => MemberForm::Iterates(Over::Places),
        Member::TextSize => operates(Operation::TextSize, 1, 0),
        Member::TextChars => MemberForm::Iterates(Over::Characters),
        Member::NextVal => MemberForm::Steps(Over::Elements),
        Member::NextKey => MemberForm::Steps(Over::Places),
        Member::NextChar => MemberForm::Steps(Over::Characters),
    }
}
