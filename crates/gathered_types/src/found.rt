//! Definitions and bounds that are found one after another.
ghost use Rattle.std.specs.Prelude.{◌≡◌, [], IfOk, OnOk};
ghost use Rattle.gathered_types.specs.Finding.{joined, one_bound, one_type};
ghost use Rattle.type_definitions.specs.Definitions.{listed};

use mo_num::{Memory, Sequence};
use std::alloc::Global;
use std::marker::Model;
use type_definitions::{Definition, Definitions, Numbers};
use type_terms::TermId;

/// What was found so far, which contracts see as the definitions that it makes.
pub(crate) struct Found {
    names: Vec<u32>,
    types: Vec<Definition>,
    bounded: Vec<u32>,
    bounds: Vec<TermId>,
}

impl Drop for Found {
    fn drop(self) {
        let Found {
            names: _names,
            types: _types,
            bounded: _bounded,
            bounds: _bounds,
        } = self;
    }
}

impl Model for Found {
    ghost use Rattle.type_definitions.specs.Definitions.{Listed, listed};

    ghost Value = { Listed };

    ghost view = { λ f. listed f.names.items f.types.items f.bounded.items f.bounds.items };
}

impl Found {
    /// Nothing. Takes no memory.
    pub(crate) fn new(alloc: Global) -> Found
        ensures { result ≡ listed [] [] [] [] }
    {
        Found {
            names: Vec::new(alloc),
            types: Vec::new(alloc),
            bounded: Vec::new(alloc),
            bounds: Vec::new(alloc),
        }
    }

    /// Adds a definition of this name.
    pub(crate) fn push_type(&mut self, name: u32, definition: Definition) -> Result<(), Memory>
        ensures { OnOk result (self.new ≡ joined self.old (one_type name definition)) }
    {
        self.names.push(name)?;
        self.types.push(definition)?;
        Ok(())
    }

    /// Adds the bound of this parameter.
    pub(crate) fn push_bound(&mut self, name: u32, bound: TermId) -> Result<(), Memory>
        ensures { OnOk result (self.new ≡ joined self.old (one_bound name bound)) }
    {
        self.bounded.push(name)?;
        self.bounds.push(bound)?;
        Ok(())
    }

    /// The definitions.
    pub(crate) fn into_definitions(self, alloc: Global) -> Result<Definitions, Memory>
        ensures { IfOk result (λ made. made ≡ self) }
    {
        let Found {
            names,
            types,
            bounded,
            bounds,
        } = self;
        let names = Numbers::new(alloc, Sequence::from_vec(names))?;
        let bounded = Numbers::new(alloc, Sequence::from_vec(bounded))?;
        Ok(Definitions::new(
            names,
            Sequence::from_vec(types),
            bounded,
            Sequence::from_vec(bounds),
        ))
    }
}
