//! What stands around the declarations of an actor and behind them.
#![tactic(auto)]

mod behind;
mod first_frame;
mod hiding;
mod names;
mod nodes;
mod stable;

pub use behind::push_functions;
pub use first_frame::around;
pub use hiding::{push_hidden, push_hidden_names};
pub use nodes::own_nodes;
pub use stable::stable_variables;
