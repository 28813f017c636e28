//! Laws of subtyping: it is an order, the greatest relation that its rules allow, and the same under other names. Each
//! function does nothing; its contract is a theorem about the definitions of types.
#![tactic(auto)]

mod messages;
mod names;
mod order;
mod rows;
mod rules;

pub use messages::{equal_types_have_equal_candid_types, equal_types_have_the_same_values};
pub use names::{maps_of_types_keep_subtyping, names_do_not_matter};
pub use order::{
    depths_are_nested, subtyping_is_an_order, subtyping_is_reflexive, subtyping_is_transitive,
    told_labels_are_own, transitivity_needs_equal_bounds,
};
pub use rows::{
    answers_are_as_wanted, answers_are_by_the_rules, different_bounds_break_transitivity,
    repeated_labels_break_reflexivity, repeated_labels_change_candid_types,
};
pub use rules::{
    closed_lists_have_subtypes, closed_pairs_are_subtypes, each_depth_is_computed,
    heads_tell_what_is_above, heads_tell_what_is_below, some_types_are_below_others,
    subtypes_are_so_by_their_heads,
};
