//! What a canister may ask of its host in one execution: the functions of `ic0`, where each is allowed, and what each does.
#![tactic(auto)]

mod call;
mod function;
mod kind;
mod memory;
mod world;

pub use call::CallEnd;
pub use function::Ic0;
pub use kind::ExecutionKind;
pub use world::{Answer, Callback, OutgoingCall, World};
