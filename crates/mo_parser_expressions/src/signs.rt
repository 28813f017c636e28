//! What the next token is to an expression.

ghost use Rattle.std.specs.Prelude.{◌≡◌, ◌≤◌};
ghost use Rattle.mo_parser_expressions.specs.Signs as spec;
ghost use Rattle.mo_syntax.specs.ExpressionGrammar as grammar;

use mo_parser_base::Look;
use mo_syntax::{AssignmentOperator, BinaryOperator, Mark, Word};

/// The operator that the token is.
pub(crate) fn operator(look: Look) -> Option<BinaryOperator>
    ensures { result ≡ spec.operator look }
{
    match look {
        Look::Reserved(Word::Or) => Some(BinaryOperator::Or),
        Look::Reserved(Word::And) => Some(BinaryOperator::And),
        Look::Mark(Mark::Equal) => Some(BinaryOperator::Equal),
        Look::Mark(Mark::NotEqual) => Some(BinaryOperator::NotEqual),
        Look::Mark(Mark::Less) => Some(BinaryOperator::Less),
        Look::Mark(Mark::Greater) => Some(BinaryOperator::Greater),
        Look::Mark(Mark::LessEqual) => Some(BinaryOperator::LessEqual),
        Look::Mark(Mark::GreaterEqual) => Some(BinaryOperator::GreaterEqual),
        Look::Mark(Mark::Plus) => Some(BinaryOperator::Add),
        Look::Mark(Mark::Minus) => Some(BinaryOperator::Subtract),
        Look::Mark(Mark::Concat) => Some(BinaryOperator::Concat),
        Look::Mark(Mark::PlusWrap) => Some(BinaryOperator::AddWrap),
        Look::Mark(Mark::MinusWrap) => Some(BinaryOperator::SubtractWrap),
        Look::Mark(Mark::Star) => Some(BinaryOperator::Multiply),
        Look::Mark(Mark::Slash) => Some(BinaryOperator::Divide),
        Look::Mark(Mark::Percent) => Some(BinaryOperator::Remainder),
        Look::Mark(Mark::StarWrap) => Some(BinaryOperator::MultiplyWrap),
        Look::Mark(Mark::Power) => Some(BinaryOperator::Power),
        _ => None,
    }
}

fn level_of(operator: BinaryOperator) -> u8
    ensures value { result ≡ grammar.level_of operator }
    ensures small { result ≤ 7 }
{
    match operator {
        BinaryOperator::Or => 2,
        BinaryOperator::And => 3,
        BinaryOperator::Equal
        | BinaryOperator::NotEqual
        | BinaryOperator::Less
        | BinaryOperator::Greater
        | BinaryOperator::LessEqual
        | BinaryOperator::GreaterEqual => 4,
        BinaryOperator::Add
        | BinaryOperator::Subtract
        | BinaryOperator::Concat
        | BinaryOperator::AddWrap
        | BinaryOperator::SubtractWrap => 5,
        BinaryOperator::Multiply
        | BinaryOperator::Divide
        | BinaryOperator::Remainder
        | BinaryOperator::MultiplyWrap => 6,
        BinaryOperator::Power => 7,
    }
}

fn left_level(operator: BinaryOperator) -> u8
    ensures { result ≡ grammar.left_level operator }
{
    match operator {
        BinaryOperator::Equal
        | BinaryOperator::NotEqual
        | BinaryOperator::Less
        | BinaryOperator::Greater
        | BinaryOperator::LessEqual
        | BinaryOperator::GreaterEqual => 5,
        _ => level_of(operator),
    }
}

/// The level of the operator, or 0.
pub(crate) fn level_at(operator: Option<BinaryOperator>) -> u8
    ensures value { result ≡ spec.level_at operator }
    ensures small { result ≤ 7 }
{
    match operator {
        None => 0,
        Some(operator) => level_of(operator),
    }
}

/// Whether the operator goes on with a left operand of a level, in an expression of at least some level.
pub(crate) fn goes(least: u8, height: u8, operator: Option<BinaryOperator>) -> bool
    ensures { result ≡ spec.goes least height operator }
{
    match operator {
        None => false,
        Some(operator) => least <= level_of(operator) && left_level(operator) <= height,
    }
}

/// The operator of an assignment that the token is.
pub(crate) fn assignment(look: Look) -> Option<AssignmentOperator>
    ensures { result ≡ spec.assignment look }
{
    match look {
        Look::Mark(Mark::Assign) => Some(AssignmentOperator::Plain),
        Look::Mark(Mark::PlusAssign) => Some(AssignmentOperator::Add),
        Look::Mark(Mark::MinusAssign) => Some(AssignmentOperator::Subtract),
        Look::Mark(Mark::StarAssign) => Some(AssignmentOperator::Multiply),
        Look::Mark(Mark::SlashAssign) => Some(AssignmentOperator::Divide),
        Look::Mark(Mark::PercentAssign) => Some(AssignmentOperator::Remainder),
        Look::Mark(Mark::PowerAssign) => Some(AssignmentOperator::Power),
        Look::Mark(Mark::ConcatAssign) => Some(AssignmentOperator::Concat),
        Look::Mark(Mark::PlusWrapAssign) => Some(AssignmentOperator::AddWrap),
        Look::Mark(Mark::MinusWrapAssign) => Some(AssignmentOperator::SubtractWrap),
        Look::Mark(Mark::StarWrapAssign) => Some(AssignmentOperator::MultiplyWrap),
        _ => None,
    }
}

fn word_begins_postfix(word: Word) -> bool
    ensures { result ≡ grammar.word_begins_postfix word }
{
    match word {
        Word::True | Word::False | Word::Null | Word::Actor => true,
        _ => false,
    }
}

fn mark_begins_postfix(mark: Mark) -> bool
    ensures { result ≡ grammar.mark_begins_postfix mark }
{
    match mark {
        Mark::ParenOpen | Mark::BracketOpen | Mark::BraceOpen => true,
        _ => false,
    }
}

fn word_begins(word: Word) -> bool
    ensures { result ≡ grammar.word_begins_exp word }
{
    match word {
        Word::Not
        | Word::If
        | Word::Switch
        | Word::While
        | Word::Loop
        | Word::For
        | Word::Label
        | Word::Break
        | Word::Continue
        | Word::Return
        | Word::Do
        | Word::Await
        | Word::Throw
        | Word::Try
        | Word::Assert
        | Word::Ignore
        | Word::Debug
        | Word::Func
        | Word::Object => true,
        _ => word_begins_postfix(word),
    }
}

fn mark_begins(mark: Mark) -> bool
    ensures { result ≡ grammar.mark_begins_exp mark }
{
    match mark {
        Mark::Question | Mark::Minus | Mark::Tag => true,
        _ => mark_begins_postfix(mark),
    }
}

/// Whether a token begins an expression of the level of calls.
pub(crate) fn begins_postfix(look: Look) -> bool
    ensures { result ≡ spec.begins_postfix look }
{
    match look {
        Look::End => false,
        Look::Reserved(word) => word_begins_postfix(word),
        Look::Mark(mark) => mark_begins_postfix(mark),
        _ => true,
    }
}

/// Whether a token begins an expression.
pub(crate) fn begins(look: Look) -> bool
    ensures { result ≡ spec.begins look }
{
    match look {
        Look::End => false,
        Look::Reserved(word) => word_begins(word),
        Look::Mark(mark) => mark_begins(mark),
        _ => true,
    }
}

/// Whether a token begins an expression of one operand.
pub(crate) fn begins_unary(look: Look) -> bool
    ensures { result ≡ spec.begins_unary look }
{
    match look {
        Look::Mark(Mark::Question | Mark::Minus | Mark::Tag) | Look::Reserved(Word::Not) => true,
        _ => false,
    }
}

/// Whether the token behind `func` and a name says that they begin a declaration.
pub(crate) fn begins_parameters(look: Look) -> bool
    ensures { result ≡ spec.begins_parameters look }
{
    match look {
        Look::Identifier | Look::Mark(Mark::ParenOpen | Mark::AngleOpen) => true,
        _ => false,
    }
}

/// Whether the token is an identifier.
pub(crate) fn is_name(look: Look) -> bool
    ensures { result ≡ spec.is_name look }
{
    match look {
        Look::Identifier => true,
        _ => false,
    }
}

/// Whether the token goes on with an operand.
pub(crate) fn goes_on(look: Look) -> bool
    ensures { result ≡ spec.goes_on look }
{
    match look {
        Look::Mark(
            Mark::Dot | Mark::BracketOpen | Mark::AngleOpen | Mark::ParenOpen | Mark::Bang,
        ) => true,
        _ => false,
    }
}

/// Whether the word begins an expression of control flow.
pub(crate) fn is_control(word: Word) -> bool
    ensures { result ≡ spec.is_control word }
{
    match word {
        Word::If
        | Word::Switch
        | Word::While
        | Word::Loop
        | Word::For
        | Word::Label
        | Word::Break
        | Word::Continue
        | Word::Return
        | Word::Do => true,
        _ => false,
    }
}

/// Whether the word begins an expression that no operator goes on with.
pub(crate) fn is_worded(word: Word) -> bool
    ensures { result ≡ spec.is_worded word }
{
    match word {
        Word::Await
        | Word::Throw
        | Word::Try
        | Word::Assert
        | Word::Ignore
        | Word::Debug
        | Word::Func
        | Word::Object => true,
        _ => is_control(word),
    }
}
