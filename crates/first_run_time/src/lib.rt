//! The first run time: the routines over memory and functions by which the host enters them, linked to one module.
#![tactic(auto)]

mod entries;
mod laws;
mod run_time;

pub use laws::{
    copies_are_replied, digits_are_replied, orders_are_replied, run_time_begins_with_a_heap,
    run_time_has_its_routines, run_time_is_formed, same_are_replied, short_arguments_trap,
};
pub use run_time::{first_run_time, run_time_module};
