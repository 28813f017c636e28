//! The names that declarations bind, and the scopes that they make.
#![tactic(auto)]

mod binding;
mod entering;
mod part;

pub use binding::{declared_types, declared_values, names_in_parameters, names_in_pattern};
pub use entering::{enter_alias, enter_block, enter_function, enter_loop, enter_object};
pub use part::Part;
