//! The steps of a module: a valid module is laid out as flat steps, with what a machine knows of its functions.
#![tactic(auto)]

mod arity;
mod body;
mod effect;
mod exits;
mod fault;
mod frame;
mod module_layout;
mod pass;
mod size;
mod stack;

pub use fault::LayoutFault;
pub use frame::frame_words;
pub use module_layout::layout;
