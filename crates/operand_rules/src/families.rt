//! On which kinds of numbers operators stand.
ghost use Rattle.std.specs.Prelude.{◌≡◌};
ghost use Rattle.typing_rules.specs.Operators as rules;
ghost use Rattle.operand_rules.specs.Families.{family_in};

use mo_num::Kind;
use mo_syntax::BinaryOperator;

/// A family of operators, which stand on the same types.
#[derive(Clone, Copy, Drop)]
pub enum Family {
    /// `+ - * / % **`
    Arithmetic,
    /// `+% -% *%`
    Wrapping,
    /// `#`
    Concatenation,
    /// `== !=`
    Equality,
    /// `< > <= >=`
    Ordering,
    /// `and or`
    Logical,
}

/// The family of an operator.
pub fn family_of(operator: BinaryOperator) -> Family
    ensures { family_in result ≡ rules.family operator }
{
    match operator {
        BinaryOperator::Or | BinaryOperator::And => Family::Logical,
        BinaryOperator::Equal | BinaryOperator::NotEqual => Family::Equality,
        BinaryOperator::Less
        | BinaryOperator::Greater
        | BinaryOperator::LessEqual
        | BinaryOperator::GreaterEqual => Family::Ordering,
        BinaryOperator::Add
        | BinaryOperator::Subtract
        | BinaryOperator::Multiply
        | BinaryOperator::Divide
        | BinaryOperator::Remainder
        | BinaryOperator::Power => Family::Arithmetic,
        BinaryOperator::AddWrap | BinaryOperator::SubtractWrap | BinaryOperator::MultiplyWrap => {
            Family::Wrapping
        }
        BinaryOperator::Concat => Family::Concatenation,
    }
}

/// The kind, where it has a width.
fn fixed(kind: Kind) -> Option<Kind>
    ensures { result ≡ rules.fixed kind }
{
    match kind {
        Kind::Nat | Kind::Int => None,
        _ => Some(kind),
    }
}

/// The kind, where the operators of the family stand on it.
pub(crate) fn standing(family: Family, kind: Kind) -> Option<Kind>
    ensures { result ≡ rules.standing (family_in family) kind }
{
    match family {
        Family::Arithmetic => Some(kind),
        Family::Wrapping => fixed(kind),
        Family::Concatenation | Family::Equality | Family::Ordering | Family::Logical => None,
    }
}

/// The kind that `-` gives on this one, where it stands on it.
pub(crate) fn negated(kind: Kind) -> Option<Kind>
    ensures { result ≡ rules.negated kind }
{
    match kind {
        Kind::Nat | Kind::Int => Some(Kind::Int),
        Kind::Int8 | Kind::Int16 | Kind::Int32 | Kind::Int64 => Some(kind),
        Kind::Nat8 | Kind::Nat16 | Kind::Nat32 | Kind::Nat64 => None,
    }
}

/// The kind, where it is signed.
pub(crate) fn signed(kind: Kind) -> Option<Kind>
    ensures { result ≡ rules.signed kind }
{
    match kind {
        Kind::Nat => None,
        _ => negated(kind),
    }
}
