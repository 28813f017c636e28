//! Types of Motoko as a graph, with the definitions of subtyping and of Candid.
#![tactic(auto)]

mod candid_laws;
mod datum;
mod fault;
mod graph;
mod heads;
mod key;
mod label;
mod layout;
mod node;
mod wire;

pub use candid_laws::{
    a_character_is_kept, a_list_has_two_entries, a_list_is_written, a_number_is_read,
    a_variable_is_saved, fields_go_by_number, parts_are_values,
};
pub use datum::{Data, Datum};
pub use fault::TypesFault;
pub use graph::TypeGraph;
pub use label::label_id;
pub use layout::{kind_number, sort_number};
pub use node::{Field, Node, Sort, TypeId};
pub use wire::{Entry, Method, Plain, Ref, TableRef, Wire};
