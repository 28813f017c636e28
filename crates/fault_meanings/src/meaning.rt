//! The meanings of faults, as `docs/FAULTS.md` has them.
ghost use Rattle.std.specs.Prelude.{◌≡◌};
ghost use Rattle.fault_meanings.specs.Meanings.{condition_meaning, lex_meaning, name_meaning, parse_meaning};

use mo_lexer::LexFault;
use mo_names::NameFault;
use mo_parser::ParseFault;
use typing_rules::Condition;

/// Why a text has no tokens.
pub fn lex_meaning(fault: LexFault) -> &'static [u8]
    ensures { result.now ≡ lex_meaning fault }
{
    match fault {
        LexFault::BadByte(_) =>
            b"A byte begins no token, or is no part of the text, character or comment in which it stands; or the source is not UTF-8.",
        LexFault::OpenComment(_) => b"A comment `/*` is not closed. The place is its beginning.",
        LexFault::OpenText(_) =>
            b"A text or a character is not closed on its line. The place is its beginning.",
        LexFault::BadEscape(_) =>
            b"Behind `\\` in a text or a character stands none of the escapes, or one that names no Unicode scalar value.",
        LexFault::WideNumber(_) => b"A number is 2 to the power of 64 or more.",
        LexFault::SourceTooLong =>
            b"The source has more than 1,048,576 bytes. The place is its first byte.",
        LexFault::Memory => b"There was no memory.",
    }
}

/// Why tokens have no tree.
pub fn parse_meaning(fault: ParseFault) -> &'static [u8]
    ensures { result.now ≡ parse_meaning fault }
{
    match fault {
        ParseFault::TooDeep(_) =>
            b"Brackets and operators stand in one another more than 400 deep. The place is the first token that is too deep.",
        ParseFault::Syntax(_) =>
            b"The tokens are no program: they are not in the grammar of the language. The place is where reading stops: the start of a token, or the end of the last one.",
        ParseFault::Memory => b"There was no memory.",
    }
}

/// Why names are not bound.
pub fn name_meaning(fault: NameFault) -> &'static [u8]
    ensures { result.now ≡ name_meaning fault }
{
    match fault {
        NameFault::Unknown(_) =>
            b"Nothing gives the name a meaning where it stands: no declaration, parameter or pattern around it, no built-in member, no label of a loop, no system function and no module of this name.",
        NameFault::Twice(_) =>
            b"A name is bound twice in one list, one pattern or one type, or two system functions have one name. The place is the second.",
        NameFault::UsedBeforeDefined(_) =>
            b"A declaration uses a name of its list that is declared at its own place or later, also by way of functions.",
        NameFault::LabelClash(_) =>
            b"Two labels of one object, variant or actor, or two stable variables, have one number in Candid. The place is the second.",
        NameFault::Reserved(_) =>
            b"A name begins with `__`, or a label is a number between two `_`. Such names are those of the compiler, and of Candid's labels.",
        NameFault::Memory => b"There was no memory.",
    }
}

/// Why a tree is not typed: what the condition asks that is false.
pub fn condition_meaning(fault: Condition) -> &'static [u8]
    ensures { result.now ≡ condition_meaning fault }
{
    match fault {
        Condition::Mismatch => b"A value of another type is asked here.",
        Condition::NotFunction => b"What is called is no function.",
        Condition::NoField => b"The type has no field or method of this name.",
        Condition::NotArray => b"What is indexed is no array.",
        Condition::NotTuple =>
            b"A part is asked by its number of what is no tuple, or has no part of this number.",
        Condition::NotOption => b"`!` stands behind what is no option.",
        Condition::BadOperator =>
            b"The operands have no type that has the operator, or no one type fits both.",
        Condition::LiteralRange =>
            b"A number is written against a number type that does not hold it.",
        Condition::NeedsType =>
            b"The type cannot be told from the form alone, and nothing around it says which is wanted.",
        Condition::NotMutable =>
            b"What is assigned to is no `var` name, no `var` field and no element of a mutable array.",
        Condition::ArgumentCount =>
            b"A function is called with more or fewer arguments than it has parameters.",
        Condition::TypeArguments =>
            b"A name stands with more or fewer types than it has type parameters.",
        Condition::Bound => b"A type that is given for a type parameter is not below its bound.",
        Condition::NotShared =>
            b"A value of a type goes into a message that cannot, or a shared function has no `async` result, or an `async` type stands elsewhere.",
        Condition::AsyncPlace =>
            b"`await`, `throw`, `try` or a call of a shared function stands where it may not, or a future is used otherwise than by `await` or `ignore`.",
        Condition::StableType => b"A stable variable has a type whose values cannot be kept.",
        Condition::PatternType =>
            b"A pattern stands on a type that does not have it, or an alternative of `or` binds a name.",
        Condition::BadDefinition =>
            b"A definition of a type leads to no type, or uses its own group with other arguments than its parameters; or bounds go in a circle.",
        Condition::BadLabel => b"`return`, `break` or `continue` leaves nothing that is around it.",
        Condition::BadPrincipal => b"The text behind `actor` is that of no principal.",
        Condition::Branches =>
            b"None of the types of the branches is one that all of them are below.",
        Condition::TooManyTypes =>
            b"More than 4,096 types are met, or they have more than 65,536 fields and parts in all. The place is the first token of the source.",
        Condition::TooManyNodes =>
            b"The tree has more than 50,000 nodes. The place is the first token of the source.",
        Condition::NotActor => b"An actor's principal stands not directly under an actor type.",
        Condition::NotIterable =>
            b"`for` goes over what has no function `next` that gives an option.",
        Condition::BangPlace => b"`!` stands in no `do ?` of its function.",
    }
}
