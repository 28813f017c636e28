//! The tokens of operators and of who sees a field.
ghost use Rattle.std.specs.Prelude.{◌≡◌, ◌++◌, ◌∷◌, [], OnOk};
ghost use Rattle.mo_syntax.specs.ExpressionGrammar.{operator_token, assignment_token, visibility_tokens};

use crate::leaves::put_word;
use mo_num::Memory;
use mo_syntax::{AssignmentOperator, BinaryOperator, Kinds, Mark, TokenKind, Visibility, Word};

fn operator_kind(operator: BinaryOperator) -> TokenKind
    ensures { result ≡ operator_token operator }
{
    match operator {
        BinaryOperator::Or => TokenKind::Reserved(Word::Or),
        BinaryOperator::And => TokenKind::Reserved(Word::And),
        BinaryOperator::Equal => TokenKind::Mark(Mark::Equal),
        BinaryOperator::NotEqual => TokenKind::Mark(Mark::NotEqual),
        BinaryOperator::Less => TokenKind::Mark(Mark::Less),
        BinaryOperator::Greater => TokenKind::Mark(Mark::Greater),
        BinaryOperator::LessEqual => TokenKind::Mark(Mark::LessEqual),
        BinaryOperator::GreaterEqual => TokenKind::Mark(Mark::GreaterEqual),
        BinaryOperator::Add => TokenKind::Mark(Mark::Plus),
        BinaryOperator::Subtract => TokenKind::Mark(Mark::Minus),
        BinaryOperator::Concat => TokenKind::Mark(Mark::Concat),
        BinaryOperator::AddWrap => TokenKind::Mark(Mark::PlusWrap),
        BinaryOperator::SubtractWrap => TokenKind::Mark(Mark::MinusWrap),
        BinaryOperator::Multiply => TokenKind::Mark(Mark::Star),
        BinaryOperator::Divide => TokenKind::Mark(Mark::Slash),
        BinaryOperator::Remainder => TokenKind::Mark(Mark::Percent),
        BinaryOperator::MultiplyWrap => TokenKind::Mark(Mark::StarWrap),
        BinaryOperator::Power => TokenKind::Mark(Mark::Power),
    }
}

pub(crate) fn put_operator(operator: BinaryOperator, out: &mut Kinds) -> Result<(), Memory>
    ensures { OnOk result (out.new ≡ out.old ++ operator_token operator ∷ []) }
{
    out.push(operator_kind(operator))
}

fn assignment_kind(operator: AssignmentOperator) -> TokenKind
    ensures { result ≡ assignment_token operator }
{
    match operator {
        AssignmentOperator::Plain => TokenKind::Mark(Mark::Assign),
        AssignmentOperator::Add => TokenKind::Mark(Mark::PlusAssign),
        AssignmentOperator::Subtract => TokenKind::Mark(Mark::MinusAssign),
        AssignmentOperator::Multiply => TokenKind::Mark(Mark::StarAssign),
        AssignmentOperator::Divide => TokenKind::Mark(Mark::SlashAssign),
        AssignmentOperator::Remainder => TokenKind::Mark(Mark::PercentAssign),
        AssignmentOperator::Power => TokenKind::Mark(Mark::PowerAssign),
        AssignmentOperator::Concat => TokenKind::Mark(Mark::ConcatAssign),
        AssignmentOperator::AddWrap => TokenKind::Mark(Mark::PlusWrapAssign),
        AssignmentOperator::SubtractWrap => TokenKind::Mark(Mark::MinusWrapAssign),
        AssignmentOperator::MultiplyWrap => TokenKind::Mark(Mark::StarWrapAssign),
    }
}

pub(crate) fn put_assignment(operator: AssignmentOperator, out: &mut Kinds) -> Result<(), Memory>
    ensures { OnOk result (out.new ≡ out.old ++ assignment_token operator ∷ []) }
{
    out.push(assignment_kind(operator))
}

pub(crate) fn put_visibility(visibility: Option<Visibility>, out: &mut Kinds) -> Result<(), Memory>
    ensures { OnOk result (out.new ≡ out.old ++ visibility_tokens visibility) }
{
    match visibility {
        None => Ok(()),
        Some(Visibility::Public) => put_word(out, Word::Public),
        Some(Visibility::Private) => put_word(out, Word::Private),
    }
}
