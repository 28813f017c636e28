//! Layers.
ghost use Rattle.std.specs.Prelude.{◌≡◌, [], IfOk};
ghost use Rattle.core_ir.specs.View.{expression};
ghost use Rattle.core_layers.specs.Layers.{seen_fails};

use crate::words::{flag, operation, unit};
use core_ir::{Binding, Constructor, Expression, Primitive, Shared};
use mo_num::{Bytes, Memory};
use mo_syntax::Items;
use mo_values::Operation;
use std::alloc::Global;

/// What stands around what follows.
#[derive(Drop)]
pub enum Layer {
    /// What follows knows what is bound.
    Binding(Binding),
    /// The value has the form, and what is inside is the nearest name in what follows.
    Opens(Shared<Constructor>, Expression),
    /// The value is null.
    IsNull(Expression),
    /// The primitive gives `true`.
    Holds(Shared<Primitive>, Items<Expression>),
}

/// What is done where a check fails.
#[derive(Clone, Copy, Debug, PartialEq, Eq)]
pub enum Fails {
    /// It traps, as a value that no pattern matches.
    Traps,
    /// It gives `()`.
    GivesUnit,
    /// It gives `false`.
    GivesFalse,
}

impl Fails {
    /// As an expression.
    pub(crate) fn expression(self, alloc: Global) -> Result<Expression, Memory>
        ensures { IfOk result (λ made. expression made ≡ seen_fails self) }
    {
        match self {
            Fails::Traps => {
                let text = Bytes::from_slice(alloc, b"pattern failed")?;
                operation(alloc, Operation::Fail(text), Items::new(alloc))
            }
            Fails::GivesUnit => unit(alloc),
            Fails::GivesFalse => flag(alloc, false),
        }
    }
}

/// The checks of patterns so far, how many names there are in what follows, and those of them that are names of the patterns, by
/// how many stand before each, in the order in which they are written.
#[derive(Drop)]
pub struct Checked {
    pub layers: Vec<Layer>,
    pub names: u32,
    pub bound: Vec<u32>,
}

impl Checked {
    /// None yet, under so many names. Takes no memory.
    pub fn new(alloc: Global, names: u32) -> Checked
        ensures layers { result.layers.items ≡ [] }
        ensures names { result.names ≡ names }
        ensures bound { result.bound.items ≡ [] }
    {
        Checked {
            layers: Vec::new(alloc),
            names,
            bound: Vec::new(alloc),
        }
    }
}
