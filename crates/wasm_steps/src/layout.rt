//! What a machine knows of a module's functions.
use crate::Step;
use mo_num::Sequence;

/// The body of a function: where its steps begin, how many locals it has besides its parameters, its greatest height of
/// operands, and the stack words of its frame.
#[derive(Clone, Copy, Debug, PartialEq, Eq)]
pub struct BodyLayout {
    pub entry: usize,
    pub locals: usize,
    pub height: usize,
    pub words: usize,
}

/// A function: the index of its type, how many parameters and results it has, and its body, unless it is imported.
#[derive(Clone, Copy, Debug, PartialEq, Eq)]
pub struct FunctionLayout {
    pub signature: u32,
    pub params: usize,
    pub results: usize,
    pub body: Option<BodyLayout>,
}

/// The steps of all bodies of a module, and its functions in the order of their indices.
#[derive(Drop)]
pub struct ModuleLayout {
    pub steps: Sequence<Step>,
    pub functions: Sequence<FunctionLayout>,
}
