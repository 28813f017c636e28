//! The routines of numbers keep their lines of the table: on words that stand for operands, in a heap that holds a world, each does what
//! its primitive does there.
#![tactic(auto)]

mod laws;

pub use laws::{
    arithmetic_is_of_the_table, negation_is_of_the_table, numbers_go_inline, order_is_of_the_table,
    sameness_is_of_the_table, wrapping_is_of_the_table,
};
