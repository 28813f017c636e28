//! The list of the places where lines start.
ghost use Rattle.std.specs.Prelude.{◌≡◌, ◌==◌, List, ℕ, length};

use std::marker::Model;

/// Places in a text, which contracts see as a list of numbers below 2^32.
#[derive(Drop)]
pub struct Starts {
    places: Vec<u32>,
}

impl Model for Starts {
    ghost use Rattle.std.specs.Prelude.{List, ℕ};

    ghost Value = { List ℕ };

    ghost view = { λ s. s.places.items };
}

impl Starts {
    /// The places of the vector. Takes no memory.
    pub fn from_vec(places: Vec<u32>) -> Self
        ensures { result ≡ places.items }
    {
        Starts { places }
    }

    /// The vector of the places. Takes no memory.
    pub fn into_vec(self) -> Vec<u32>
        ensures { result.items ≡ self }
    {
        self.places
    }

    /// The places as a slice.
    pub fn as_slice(&self) -> &[u32]
        ensures { result.now ≡ self.now }
    {
        self.places.as_slice()
    }

    /// How many places there are.
    pub fn len(&self) -> usize
        ensures { result ≡ length self.now }
    {
        self.places.len()
    }

    /// Whether there are none.
    pub fn is_empty(&self) -> bool
        ensures { result ≡ (length self.now == 0) }
    {
        self.places.is_empty()
    }
}
