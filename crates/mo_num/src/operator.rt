//! The operators of the language that may trap, and their traps.
use thiserror::Error;

/// A binary operator on numbers: Motoko language manual, section "Binary operators".
#[derive(Clone, Copy, Debug, PartialEq, Eq)]
pub enum Operator {
    /// `+`
    Add,
    /// `-`
    Sub,
    /// `*`
    Mul,
    /// `/`, which truncates toward zero
    Div,
    /// `%`, whose sign is the dividend's
    Rem,
    /// `**`
    Pow,
}

/// Why an operator has no result.
#[derive(Clone, Copy, Debug, PartialEq, Eq, Error)]
pub enum NumTrap {
    /// The result is outside the kind's range, or the exponent is negative.
    #[error("the result is outside the range of its type")]
    Overflow,
    /// A difference of `Nat` is below 0.
    #[error("a difference of Nat is below 0")]
    Underflow,
    /// The divisor is 0.
    #[error("the divisor is 0")]
    DivideByZero,
}
