//! Tables of the Candid types of graphs.
ghost use Rattle.std.specs.Prelude.{◌≡◌, ◌==◌, IfOk, OnOk, length, map, slice_get};
ghost use Rattle.mo_types.specs.Heads.{map_option};
ghost use Rattle.mo_types.specs.Graph.{head_at, node_of_slot, node_or_bottom};
ghost use Rattle.mo_types.specs.Wire.{map_wire, wire_of_node};
ghost use Rattle.candid_types.specs.Shapes.{IsTableOf, ref_of};

use crate::heads::head_of;
use mo_num::{Memory, Sequence};
use mo_types::{Plain, TypeGraph, Wire};
use std::alloc::Global;
use std::marker::Model;

/// The heads of the Candid types of a graph, by number: first the types without parts, then the types of the graph.
/// Contracts see it as the list of the heads.
#[derive(Drop)]
pub struct Shapes {
    heads: Sequence<Wire<usize>>,
}

impl Model for Shapes {
    ghost use Rattle.std.specs.Prelude.{List, ℕ};
    ghost use Rattle.mo_types.specs.declared.wire.Wire.{Wire};

    ghost Value = { List (Wire ℕ) };

    ghost view = { λ s. s.heads };
}

const PLAINS: [Plain; 18] = [
    Plain::Empty,
    Plain::Null,
    Plain::Bool,
    Plain::Nat,
    Plain::Int,
    Plain::Nat8,
    Plain::Nat16,
    Plain::Nat32,
    Plain::Nat64,
    Plain::Int8,
    Plain::Int16,
    Plain::Int32,
    Plain::Int64,
    Plain::Float32,
    Plain::Float64,
    Plain::Text,
    Plain::Reserved,
    Plain::Principal,
];

/// The head of the Candid type of the type of this number.
fn head_at(alloc: Global, types: &TypeGraph, index: usize) -> Result<Wire<usize>, Memory>
    ensures { IfOk result (λ made. map_wire ref_of made ≡ wire_of_node (head_at types.now) (node_or_bottom (node_of_slot (slice_get types.now index)))) }
{
    match types.get_index(index) {
        Some(node) => head_of(alloc, types, node),
        None => Ok(Wire::Simple(Plain::Empty)),
    }
}

impl Shapes {
    /// The table of a graph. What is not shareable, or not defined yet, is empty in it. Takes time and memory by the
    /// fields and parts of the graph.
    pub fn new(alloc: Global, types: &TypeGraph) -> Result<Shapes, Memory>
        ensures { IfOk result (λ made. IsTableOf types.now made) }
    {
        let mut heads = Vec::with_capacity(alloc, types.len())?;
        for simple in PLAINS {
            heads.push(Wire::Simple(simple))?;
        }
        for index in 0..types.len() {
            heads.push(head_at(alloc, types, index)?)?;
        }
        Ok(Shapes {
            heads: Sequence::from_vec(heads),
        })
    }

    /// How many numbers there are.
    pub fn len(&self) -> usize
        ensures { result ≡ length self.now }
    {
        self.heads.len()
    }

    /// Whether there are none.
    pub fn is_empty(&self) -> bool
        ensures { result ≡ (length self.now == 0) }
    {
        self.heads.is_empty()
    }

    /// The head under a number.
    pub fn get(&self, number: usize) -> Option<&Wire<usize>>
        ensures { map_option (λ w. w.now) result ≡ slice_get self.now number }
    {
        self.heads.as_slice().get(number)
    }
}
