//! Conditions by their names, and in words.
ghost use Rattle.std.specs.Prelude.{◌≡◌};
ghost use Rattle.mo_check.specs.Names.{condition_name};

use typing_rules::Condition;

/// The name of a condition.
pub fn condition_name(condition: Condition) -> &'static str
    ensures { result.now ≡ condition_name condition }
{
    match condition {
        Condition::Mismatch => "Mismatch",
        Condition::NotFunction => "NotFunction",
        Condition::NoField => "NoField",
        Condition::NotArray => "NotArray",
        Condition::NotTuple => "NotTuple",
        Condition::NotOption => "NotOption",
        Condition::BadOperator => "BadOperator",
        Condition::LiteralRange => "LiteralRange",
        Condition::NeedsType => "NeedsType",
        Condition::NotMutable => "NotMutable",
        Condition::ArgumentCount => "ArgumentCount",
        Condition::TypeArguments => "TypeArguments",
        Condition::Bound => "Bound",
        Condition::NotShared => "NotShared",
        Condition::AsyncPlace => "AsyncPlace",
        Condition::StableType => "StableType",
        Condition::PatternType => "PatternType",
        Condition::BadDefinition => "BadDefinition",
        Condition::BadLabel => "BadLabel",
        Condition::BadPrincipal => "BadPrincipal",
        Condition::Branches => "Branches",
        Condition::TooManyTypes => "TooManyTypes",
        Condition::TooManyNodes => "TooManyNodes",
        Condition::NotActor => "NotActor",
        Condition::NotIterable => "NotIterable",
        Condition::BangPlace => "BangPlace",
    }
}

/// What is wrong where the condition is false.
pub(crate) fn condition_text(condition: Condition) -> &'static str {
    match condition {
        Condition::Mismatch => "what stands there is not of the type that is wanted",
        Condition::NotFunction => "what is called is no function",
        Condition::NoField => "the value has no field or method of this name",
        Condition::NotArray => "what is indexed is no array",
        Condition::NotTuple => "what a part is taken of is no tuple, or has too few parts",
        Condition::NotOption => "what `!` stands behind is no option",
        Condition::BadOperator => "the types of the operands do not have the operator",
        Condition::LiteralRange => "the literal is no number of its type",
        Condition::NeedsType => "a type has to be written",
        Condition::NotMutable => "what is assigned to is not mutable",
        Condition::ArgumentCount =>
            "the call has more or fewer arguments than the function has parameters",
        Condition::TypeArguments =>
            "the name has more or fewer type arguments than it has parameters",
        Condition::Bound => "a type argument is not below its bound",
        Condition::NotShared => "the type is not shareable, or not that of a shared function",
        Condition::AsyncPlace =>
            "`await`, `try`, `throw` or a call of a shared function may not stand",
        Condition::StableType => "the type of the stable variable is not stable",
        Condition::PatternType => "the pattern does not stand on the type",
        Condition::BadDefinition =>
            "the type definition reaches no type, or is used in its own group at other parameters than its own",
        Condition::BadLabel => "the label may not be left or continued",
        Condition::BadPrincipal => "the text is not that of a principal",
        Condition::Branches => "the types of the branches have no greatest",
        Condition::TooManyTypes =>
            "the types that are met have more than 4096 nodes, or more than 65536 fields and parts,",
        Condition::TooManyNodes => "the program has more than 50000 nodes,",
        Condition::NotActor => "the actor reference does not stand at an actor type",
        Condition::NotIterable => "the value has no `next` that gives options",
        Condition::BangPlace => "`!` stands in no `do ?` of its function",
    }
}
