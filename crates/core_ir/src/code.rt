//! Structured code over slots: the code of `SplitCore` and of `Flat`.
ghost use Rattle.std.specs.Prelude.{◌≡◌, IfOk};

use crate::constant::Constant;
use crate::primitive::{Constructor, Primitive};
use crate::program::Signature;
use crate::scopes::Scopes;
use crate::shared::Shared;
use mo_num::{Memory, Sequence};
use mo_syntax::Items;

/// What an instruction reads at no cost.
#[derive(Drop)]
pub enum Operand {
    /// A slot of the frame.
    Slot(u32),
    /// A value that the group of this function sees.
    Captured(u32),
    /// A function of the same group.
    Member(u32),
    /// A name of the actor.
    Global(u32),
    Constant(Shared<Constant>),
}

impl Operand {
    /// The same operand for another place.
    pub fn copy(&self) -> Result<Operand, Memory>
        ensures { IfOk result (λ made. made ≡ self.now) }
    {
        match self {
            Operand::Slot(slot) => Ok(Operand::Slot(*slot)),
            Operand::Captured(place) => Ok(Operand::Captured(*place)),
            Operand::Member(place) => Ok(Operand::Member(*place)),
            Operand::Global(place) => Ok(Operand::Global(*place)),
            Operand::Constant(constant) => Ok(Operand::Constant(constant.share()?)),
        }
    }
}

/// Where a jump goes.
#[derive(Clone, Copy, Debug, PartialEq, Eq)]
pub enum Way {
    /// Out of so many constructs and the next one. A loop begins again.
    Near(u32),
    /// To a segment.
    Far(u32),
}

/// What takes an error: it comes into the slot, and the code goes on there.
#[derive(Clone, Copy, Debug, PartialEq, Eq)]
pub struct Handler {
    pub slot: u32,
    pub way: Way,
}

/// What a group of functions sees where it is made.
#[derive(Drop)]
pub enum Seen {
    /// All names in this scope of the body.
    Scope(u32),
    Listed(Sequence<Operand>),
}

/// Instructions, and how they end.
#[cycle(code)]
#[derive(Drop)]
pub struct Code {
    pub instructions: Items<Instruction>,
    pub exit: Exit,
}

/// An instruction; its first number is the slot that takes what it gives.
#[cycle(code)]
#[derive(Drop)]
pub enum Instruction {
    Let(u32, Shared<Primitive>, Sequence<Operand>),
    If(Shared<Primitive>, Sequence<Operand>, Code, Code),
    Match(u32, Shared<Constructor>, Operand, Code, Code),
    Loop(Code),
    Label(Code),
    /// Makes the functions of this group, whose values go into the slots from the first one on.
    Make(u32, Seen, u32),
    Call(u32, Operand, Sequence<Operand>),
    /// The number of elements, and the function of an index.
    Tabulate(u32, Operand, Operand),
    Send(u32, Shared<Signature>, Operand, Sequence<Operand>, Option<Handler>),
}

/// How code ends.
#[derive(Drop)]
pub enum Exit {
    /// Behind the construct that it stands in.
    Stop,
    /// Out of so many constructs and the next one. A loop begins again.
    Branch(u32),
    /// Goes on as a segment.
    Leave(u32),
    /// The same, with a value in a slot.
    Pass(u32, Operand, u32),
    /// Waits for the answer of the future; it goes into the slot, and the code goes on as the segment.
    Wait(u32, Operand, Option<Handler>, u32),
    Raise(Operand, Option<Handler>),
    Return(Operand),
}

/// The body of a function or method: it has its arguments in its first slots, and begins as segment 0.
#[derive(Drop)]
pub struct CodeBody {
    pub parameters: u32,
    pub slots: u32,
    /// The nodes of the parameters and the body in the source.
    pub nodes: u32,
    pub scopes: Scopes,
    pub segments: Sequence<Code>,
}
