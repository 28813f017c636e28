//! The forms of expressions by how many expressions are their parts.
ghost use Rattle.std.specs.Prelude.{◌≡◌, ◌+◌, IfOk};
ghost use Rattle.mo_syntax.specs.declared.declarations.Declaration.TheOpen as written;
ghost use Rattle.typing_rules.specs.AbstractSyntax as syntax;
ghost use Rattle.typing_rules.specs.AbstractExpressions as rules;
ghost use Rattle.abstract_tree.specs.TreeView.{plain, plain_form};
ghost use Rattle.abstract_type_walk.specs.Stands.{Is, Stands};
ghost use Rattle.abstract_parts.specs.Shapes.{alone, leaf_form, one_form, two_form};

use abstract_tree::{Expression, ExpressionForm, make_expression};
use abstract_types::{copied_literal, count_if, number_behind};
use mo_num::{Bytes, Memory};
use mo_syntax::{AssignmentOperator, BinaryOperator, Literal, Name, Text};
use std::alloc::Global;

/// The forms that no expression is a part of.
#[derive(Clone, Copy)]
pub enum LeafForm<'a> {
    Constant(&'a Literal),
    Name(&'a Name),
    Tag(&'a Name),
    Break(&'a Name),
    Continue(&'a Name),
    Return,
    ActorReference(&'a Text),
}

/// The forms that one expression is a part of, and perhaps a name or a number.
#[derive(Clone, Copy)]
pub enum OneForm<'a> {
    Optional,
    Negative,
    Not,
    Do,
    DoOption,
    Await,
    Throw,
    Assert,
    Ignore,
    Debug,
    Loop,
    Return,
    Bang,
    Tagged(&'a Name),
    Break(&'a Name),
    Member(&'a Name),
    Projection(u64),
}

/// The forms that two expressions are the parts of.
#[derive(Clone, Copy)]
pub enum TwoForm {
    Assign(AssignmentOperator),
    Binary(BinaryOperator),
    Index,
    When,
    While,
    LoopWhile,
}

/// The form itself.
pub fn leaf_form(alloc: Global, form: LeafForm<'_>) -> Result<ExpressionForm<u32>, Memory>
    ensures { IfOk result (λ made. plain_form made ≡ leaf_form form.entry) }
{
    match form {
        LeafForm::Constant(literal) => Ok(ExpressionForm::Constant(copied_literal(
            alloc, literal,
        )?)),
        LeafForm::Name(name) => Ok(ExpressionForm::Name(Bytes::from_slice(
            alloc,
            name.as_slice(),
        )?)),
        LeafForm::Tag(name) => Ok(ExpressionForm::Tag(Bytes::from_slice(alloc, name.as_slice())?)),
        LeafForm::Break(name) => Ok(ExpressionForm::Break(Bytes::from_slice(
            alloc,
            name.as_slice(),
        )?)),
        LeafForm::Continue(name) => Ok(ExpressionForm::Continue(Bytes::from_slice(
            alloc,
            name.as_slice(),
        )?)),
        LeafForm::Return => Ok(ExpressionForm::Return),
        LeafForm::ActorReference(text) => Ok(ExpressionForm::ActorReference(Bytes::from_slice(
            alloc,
            text.as_slice(),
        )?)),
    }
}

/// The form of this part.
pub fn one_form(
    alloc: Global,
    form: OneForm<'_>,
    of: Expression<u32>,
) -> Result<ExpressionForm<u32>, Memory>
    ensures { IfOk result (λ made. plain_form made ≡ one_form form.entry (plain of)) }
{
    match form {
        OneForm::Optional => Ok(ExpressionForm::Optional(of)),
        OneForm::Negative => Ok(ExpressionForm::Negative(of)),
        OneForm::Not => Ok(ExpressionForm::Not(of)),
        OneForm::Do => Ok(ExpressionForm::Do(of)),
        OneForm::DoOption => Ok(ExpressionForm::DoOption(of)),
        OneForm::Await => Ok(ExpressionForm::Await(of)),
        OneForm::Throw => Ok(ExpressionForm::Throw(of)),
        OneForm::Assert => Ok(ExpressionForm::Assert(of)),
        OneForm::Ignore => Ok(ExpressionForm::Ignore(of)),
        OneForm::Debug => Ok(ExpressionForm::Debug(of)),
        OneForm::Loop => Ok(ExpressionForm::Loop(of)),
        OneForm::Return => Ok(ExpressionForm::ReturnWith(of)),
        OneForm::Bang => Ok(ExpressionForm::Bang(of)),
        OneForm::Tagged(name) => Ok(ExpressionForm::Tagged(
            Bytes::from_slice(alloc, name.as_slice())?,
            of,
        )),
        OneForm::Break(name) => Ok(ExpressionForm::BreakWith(
            Bytes::from_slice(alloc, name.as_slice())?,
            of,
        )),
        OneForm::Member(name) => Ok(ExpressionForm::Member(
            of,
            Bytes::from_slice(alloc, name.as_slice())?,
        )),
        OneForm::Projection(number) => Ok(ExpressionForm::Projection(of, number)),
    }
}

/// An assignment, by its operator.
fn assigned(
    operator: AssignmentOperator,
    left: Expression<u32>,
    right: Expression<u32>,
) -> ExpressionForm<u32>
    ensures { plain_form result ≡ rules.assigned operator (plain left) (plain right) }
{
    match operator {
        AssignmentOperator::Plain => ExpressionForm::Assign(left, right),
        AssignmentOperator::Add => ExpressionForm::AssignBy(BinaryOperator::Add, left, right),
        AssignmentOperator::Subtract => ExpressionForm::AssignBy(
            BinaryOperator::Subtract,
            left,
            right,
        ),
        AssignmentOperator::Multiply => ExpressionForm::AssignBy(
            BinaryOperator::Multiply,
            left,
            right,
        ),
        AssignmentOperator::Divide => ExpressionForm::AssignBy(BinaryOperator::Divide, left, right),
        AssignmentOperator::Remainder => ExpressionForm::AssignBy(
            BinaryOperator::Remainder,
            left,
            right,
        ),
        AssignmentOperator::Power => ExpressionForm::AssignBy(BinaryOperator::Power, left, right),
        AssignmentOperator::Concat => ExpressionForm::AssignBy(BinaryOperator::Concat, left, right),
        AssignmentOperator::AddWrap => ExpressionForm::AssignBy(
            BinaryOperator::AddWrap,
            left,
            right,
        ),
        AssignmentOperator::SubtractWrap => ExpressionForm::AssignBy(
            BinaryOperator::SubtractWrap,
            left,
            right,
        ),
        AssignmentOperator::MultiplyWrap => ExpressionForm::AssignBy(
            BinaryOperator::MultiplyWrap,
            left,
            right,
        ),
    }
}

/// The form of these parts.
pub fn two_form(form: TwoForm, left: Expression<u32>, right: Expression<u32>) -> ExpressionForm<u32>
    ensures { plain_form result ≡ two_form form (plain left) (plain right) }
{
    match form {
        TwoForm::Assign(operator) => assigned(operator, left, right),
        TwoForm::Binary(operator) => ExpressionForm::Binary(operator, left, right),
        TwoForm::Index => ExpressionForm::Index(left, right),
        TwoForm::When => ExpressionForm::When(left, right),
        TwoForm::While => ExpressionForm::While(left, right),
        TwoForm::LoopWhile => ExpressionForm::LoopWhile(left, right),
    }
}

/// The expression of this form, and the number of the token behind so many more.
pub fn finish(
    alloc: Global,
    at: u32,
    form: ExpressionForm<u32>,
    last: u32,
    tokens: u32,
) -> Result<(Expression<u32>, u32), Memory>
    ensures { IfOk result (Is plain (syntax.exp at (plain_form form)) (last + tokens)) }
{
    let behind = number_behind(last, tokens)?;
    Ok((make_expression(alloc, at, form)?, behind))
}

/// A word, a name or a literal, of so many tokens.
pub fn leaf(
    alloc: Global,
    tokens: u32,
    form: LeafForm<'_>,
    at: u32,
) -> Result<(Expression<u32>, u32), Memory>
    ensures { IfOk result (Stands plain (alone tokens (leaf_form form.entry)) at) }
{
    let form = leaf_form(alloc, form)?;
    finish(alloc, at, form, at, tokens)
}

/// An actor by its text, in parentheses or not.
pub fn actor_reference(
    alloc: Global,
    parentheses: bool,
    text: &Text,
    at: u32,
) -> Result<(Expression<u32>, u32), Memory>
    ensures { IfOk result (Stands plain (rules.expression_step (written.ActorReference parentheses text.now)) at) }
{
    let marks = count_if(parentheses);
    leaf(alloc, 2 + marks + marks, LeafForm::ActorReference(text), at)
}
