//! The parts of expressions and declarations: forms by how many expressions are their parts, names, and lists of what stands in them.
#![tactic(auto)]

mod forms;
mod list_walk;
mod names;
mod tree_walk;

pub use forms::{
    LeafForm, OneForm, TwoForm, actor_reference, finish, leaf, leaf_form, one_form, two_form,
};
pub use names::{abstract_names, name_behind};
pub use tree_walk::TreeWalk;
