//! The conditions that the rules of typing ask.

/// A condition of a rule of typing. Where a program is refused, it is false at a node.
#[derive(Clone, Copy, Debug, PartialEq, Eq)]
pub enum Condition {
    /// A type is below the one that is wanted, and a literal or a part is of it.
    Mismatch,
    /// What is called is a function.
    NotFunction,
    /// A value has a field or method of this name.
    NoField,
    /// What is indexed is an array.
    NotArray,
    /// What a part is taken of is a tuple of enough parts.
    NotTuple,
    /// What `!` stands behind is an option.
    NotOption,
    /// The types of the operands have the operator.
    BadOperator,
    /// A literal is a number of its type.
    LiteralRange,
    /// A type is written where it has to be.
    NeedsType,
    /// What is assigned to is mutable.
    NotMutable,
    /// A call has as many arguments as the function has parameters.
    ArgumentCount,
    /// A name stands with as many type arguments as it has parameters.
    TypeArguments,
    /// A type argument is below its bound.
    Bound,
    /// A type is shareable where it has to be, and one of a shared function where it has to be.
    NotShared,
    /// `await`, `try`, `throw` and calls of shared functions stand where they may.
    AsyncPlace,
    /// The type of a stable variable is stable.
    StableType,
    /// A pattern stands on the type.
    PatternType,
    /// A type definition reaches a type, and is used in its own group at its own parameters only.
    BadDefinition,
    /// A label is one that may be left or continued here.
    BadLabel,
    /// A text is that of a principal.
    BadPrincipal,
    /// The types of several branches have a greatest.
    Branches,
    /// The types that are met are within the limits.
    TooManyTypes,
    /// The nodes of the program are within the limit.
    TooManyNodes,
    /// An actor reference stands at an actor type.
    NotActor,
    /// A value has a `next` that gives options.
    NotIterable,
    /// `!` stands in a `do ?` of its function.
    BangPlace,
}
