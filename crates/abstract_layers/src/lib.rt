//! The layers of expressions, each made of what is made of the layers below.
#![tactic(auto)]

mod control_walk;
mod layers;

pub use layers::Layers;
