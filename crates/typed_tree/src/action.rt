//! What is done with the values of operands.
use mo_num::Sequence;
use mo_types::TypeId;
use mo_values::Operation;

/// A built-in function: Motoko base library. A method of an array or text holds the array or text that it is of.
#[derive(Clone, Copy, Debug, PartialEq, Eq)]
pub enum Member {
    DebugPrint,
    DebugTrap,
    ErrorReject,
    ErrorMessage,
    ErrorCode,
    NatToText,
    IntToText,
    ArrayTabulate,
    ArrayInit,
    ArrayFreeze,
    ArrayThaw,
    PrincipalFromActor,
    ArraySize,
    ArrayVals,
    ArrayKeys,
    TextSize,
    TextChars,
    /// `next` of `vals`: it holds the array, and the cell with its place.
    NextVal,
    /// `next` of `keys`: it holds the array, and the cell with its place.
    NextKey,
    /// `next` of `chars`: it holds the text, and the cell with its place in characters.
    NextChar,
}

/// What is done where the operands have their values. An operation gives a value or traps; the other actions make a function
/// value, need the store, print, call, wait, or leave a construct.
pub enum Action {
    Operate(Operation),
    /// The built-in function, which holds the operands.
    BuiltIn(Member),
    /// A new cell that holds the operand.
    New,
    /// What a cell holds.
    Read,
    /// `c := a`
    Write,
    /// `a[i] := b`; the bound is tested after `b`.
    WriteElement,
    Print,
    /// `throw a`
    Throw,
    /// Calls the first operand, a function that is no shared one, with the others.
    Call,
    /// Calls the first operand, a shared function with parameters and results of these types, with the others.
    Send(Sequence<TypeId>, Sequence<TypeId>),
    /// `await a`
    Await,
    /// Leaves so many labels and the next one, or all labels and the function, with the operand.
    Break(u32),
    /// `a!`: the value of the option, or else it leaves with `null`, as many labels as `Break` does.
    Unwrap(u32),
}

// Written here, so that it is proved here, and not again in each crate that lets an expression go.
impl Drop for Action {
    fn drop(self) {
        match self {
            Action::Operate(_operation) => {}
            Action::BuiltIn(_member) => {}
            Action::New => {}
            Action::Read => {}
            Action::Write => {}
            Action::WriteElement => {}
            Action::Print => {}
            Action::Throw => {}
            Action::Call => {}
            Action::Send(_parameters, _results) => {}
            Action::Await => {}
            Action::Break(_exits) => {}
            Action::Unwrap(_exits) => {}
        }
    }
}
