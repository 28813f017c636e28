//! Definitions of types.
ghost use Rattle.std.specs.Prelude.{◌≡◌, length};
ghost use Rattle.mo_types.specs.Heads.{map_option};
ghost use Rattle.type_definitions.specs.Definitions.{Listed, bound_of, definition_of};

use crate::Numbers;
use mo_num::Sequence;
use std::marker::Model;
use type_terms::TermId;

/// A type definition or class: the parameters in scope at it and then its own, how many of them are in scope at it, and the
/// type on its right side.
pub struct Definition {
    pub outer: usize,
    pub parameters: Numbers,
    pub right: TermId,
}

// Written here, so that it is proved here, and not again in each crate that lets a definition go.
impl Drop for Definition {
    fn drop(self) {
        let Definition {
            outer: _outer,
            parameters: _parameters,
            right: _right,
        } = self;
    }
}

/// The definitions of a program, each under the number of the token that is its name, and the bounds of its type parameters.
pub struct Definitions {
    names: Numbers,
    types: Sequence<Definition>,
    bounded: Numbers,
    bounds: Sequence<TermId>,
}

// Written here, so that it is proved here, and not again in each crate that lets definitions go.
impl Drop for Definitions {
    fn drop(self) {
        let Definitions {
            names: _names,
            types: _types,
            bounded: _bounded,
            bounds: _bounds,
        } = self;
    }
}

impl Model for Definitions {
    ghost use Rattle.type_definitions.specs.Definitions.{Listed, listed};

    ghost Value = { Listed };

    ghost view = { λ d. listed d.names d.types d.bounded d.bounds };
}

impl Definitions {
    /// These definitions, and the bounds of these parameters. Takes no memory.
    pub fn new(
        names: Numbers,
        types: Sequence<Definition>,
        bounded: Numbers,
        bounds: Sequence<TermId>,
    ) -> Definitions
        ensures { result ≡ record { names = names; types = types; bounded = bounded; bounds = bounds } }
    {
        Definitions {
            names,
            types,
            bounded,
            bounds,
        }
    }

    /// The definitions, without their names.
    pub fn types(&self) -> &[Definition]
        ensures { result.now ≡ self.now.types }
    {
        self.types.as_slice()
    }

    /// The names of the definitions.
    pub fn names(&self) -> &Numbers
        ensures { result.now ≡ self.now.names }
    {
        &self.names
    }

    /// The bounds of the parameters.
    pub fn bounds(&self) -> &[TermId]
        ensures { result.now ≡ self.now.bounds }
    {
        self.bounds.as_slice()
    }

    /// The definition of this name.
    pub fn find(&self, at: u32) -> Option<&Definition>
        ensures { map_option (λ d. d.now) result ≡ definition_of self.now at }
    {
        match self.names.find(at) {
            Some(place) => self.types.as_slice().get(place),
            None => None,
        }
    }

    /// The bound of this parameter.
    pub fn bound(&self, at: u32) -> Option<TermId>
        ensures { result ≡ bound_of self.now at }
    {
        match self.bounded.find(at) {
            Some(place) => self.bounds.as_slice().get(place).copied(),
            None => None,
        }
    }
}
