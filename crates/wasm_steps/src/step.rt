//! The steps of code (WebAssembly Core 1.0, section 4.4).
ghost use Rattle.std.specs.Prelude.{◌≡◌};
ghost use Rattle.wasm_steps.specs.Steps.{laid_step};

use wasm_tree::{
    BinaryOperator, Comparison, Conversion, LoadKind, Plain, StoreKind, UnaryOperator, ValueType,
};

/// Where a branch goes on, the height that it cuts the operands to, and how many it keeps on top of them.
#[derive(Clone, Copy, Debug, PartialEq, Eq)]
pub struct Label {
    pub to: u32,
    pub height: u32,
    pub keep: u32,
}

/// One step. Places are those of the list of all steps. Each step is an instruction that counts, but for `Jump`,
/// `Entry` and `Finish`.
#[derive(Clone, Copy, Debug, PartialEq, Eq)]
pub enum Step {
    Nop,
    Drop,
    Select,
    LocalGet(u32),
    LocalSet(u32),
    LocalTee(u32),
    GlobalGet(u32),
    GlobalSet(u32),
    /// With what is added to the address. An alignment is only a hint.
    Load(LoadKind, u32),
    Store(StoreKind, u32),
    MemorySize,
    MemoryGrow,
    I32Const(i32),
    I64Const(i64),
    EqualsZero(ValueType),
    Compare(ValueType, Comparison),
    Unary(ValueType, UnaryOperator),
    Binary(ValueType, BinaryOperator),
    Convert(Conversion),
    Unreachable,
    /// A block or a loop begins.
    Enter,
    /// An `if`: to this place where the operand is 0, else on.
    Test(u32),
    /// From the end of an `if`'s first side past its second one.
    Jump(u32),
    Br(Label),
    BrIf(Label),
    /// How many labels follow, besides the default one, which comes last.
    BrTable(u32),
    /// A label of a `BrTable`, which no step leads to.
    Entry(Label),
    /// Ends the body with so many operands.
    Return(u32),
    /// `call` of the function with this index.
    Call(u32),
    /// `call_indirect` of a function whose type has this index.
    CallIndirect(u32),
    /// The end of a body.
    Finish,
}

/// The step of a plain instruction.
pub fn step_of(plain: Plain) -> Step
    ensures { result ≡ laid_step plain }
{
    match plain {
        Plain::Nop => Step::Nop,
        Plain::Drop => Step::Drop,
        Plain::Select => Step::Select,
        Plain::LocalGet(local) => Step::LocalGet(local),
        Plain::LocalSet(local) => Step::LocalSet(local),
        Plain::LocalTee(local) => Step::LocalTee(local),
        Plain::GlobalGet(global) => Step::GlobalGet(global),
        Plain::GlobalSet(global) => Step::GlobalSet(global),
        Plain::Load(kind, argument) => Step::Load(kind, argument.offset),
        Plain::Store(kind, argument) => Step::Store(kind, argument.offset),
        Plain::MemorySize => Step::MemorySize,
        Plain::MemoryGrow => Step::MemoryGrow,
        Plain::I32Const(value) => Step::I32Const(value),
        Plain::I64Const(value) => Step::I64Const(value),
        Plain::EqualsZero(kind) => Step::EqualsZero(kind),
        Plain::Compare(kind, comparison) => Step::Compare(kind, comparison),
        Plain::Unary(kind, operator) => Step::Unary(kind, operator),
        Plain::Binary(kind, operator) => Step::Binary(kind, operator),
        Plain::Convert(conversion) => Step::Convert(conversion),
    }
}
