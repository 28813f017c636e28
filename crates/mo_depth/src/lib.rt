//! The depth of tokens: how deep brackets nest, and how many tokens stand in them. And the room on the native stack that their tree may take.
#![tactic(auto)]

mod bracket;
mod deep;
mod effect;
mod frame;
mod nesting;
mod role;
mod room;
mod stack;
mod steps;
mod taking;

pub use bracket::Bracket;
pub use deep::first_deep;
pub use effect::Effect;
pub use frame::Frame;
pub use role::Role;
pub use stack::ask_for_stack;
