//! Operators of two operands (Motoko language manual, "Operators").

/// An operator between two expressions.
#[derive(Clone, Copy)]
pub enum BinaryOperator {
    /// `or`
    Or,
    /// `and`
    And,
    /// `==`
    Equal,
    /// `!=`
    NotEqual,
    /// `<`
    Less,
    /// `>`
    Greater,
    /// `<=`
    LessEqual,
    /// `>=`
    GreaterEqual,
    /// `+`
    Add,
    /// `-`
    Subtract,
    /// `#`
    Concat,
    /// `+%`
    AddWrap,
    /// `-%`
    SubtractWrap,
    /// `*`
    Multiply,
    /// `/`
    Divide,
    /// `%`
    Remainder,
    /// `*%`
    MultiplyWrap,
    /// `**`
    Power,
}

/// An operator between what is assigned to and an expression.
#[derive(Clone, Copy)]
pub enum AssignmentOperator {
    /// `:=`
    Plain,
    /// `+=`
    Add,
    /// `-=`
    Subtract,
    /// `*=`
    Multiply,
    /// `/=`
    Divide,
    /// `%=`
    Remainder,
    /// `**=`
    Power,
    /// `#=`
    Concat,
    /// `+%=`
    AddWrap,
    /// `-%=`
    SubtractWrap,
    /// `*%=`
    MultiplyWrap,
}
