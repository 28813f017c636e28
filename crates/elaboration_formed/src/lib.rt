//! What elaboration makes of well-typed programs is formed: its names, labels and groups are there, and its actions have their operands. It holds when
//! actions of typed programs have theirs; each function of `laws` does nothing, and its contract is a theorem.
#![tactic(auto)]

mod laws;

pub use laws::{code_is_formed, groups_are_formed, typed_trees_are_shaped};
