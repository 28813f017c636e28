//! The languages between the typed program and low code: `Core` of nested expressions, `SplitCore` of structured code over slots
//! in segments, and `Flat`, whose closures hold what they use. It holds their meanings; each function of `rows` does nothing,
//! and its contract is a theorem about them.
#![tactic(auto)]

mod code;
mod constant;
mod expression;
mod primitive;
mod program;
mod rows;
mod scopes;
mod shared;

pub use code::{Code, CodeBody, Exit, Handler, Instruction, Operand, Seen, Way};
pub use constant::Constant;
pub use expression::{Binding, CoreBody, Expression, Goal};
pub use primitive::{Constructor, Primitive};
pub use program::{Core, Flat, Group, Method, Program, Signature, SplitCore, StableVariable};
pub use rows::{
    actors_are_as_wanted, awaits_are_as_wanted, calls_are_limited, functions_are_as_wanted,
    starts_are_as_wanted,
};
pub use scopes::{Outermost, Scopes};
pub use shared::Shared;
