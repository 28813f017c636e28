//! What the values of a type need, so that they may be sent or compared.
ghost use Rattle.std.specs.Prelude.{◌≡◌, ◌&&◌, ℕ, Bool, true, false, IfOk, OnOk, IsTrue};
ghost use Rattle.shareable_types.specs.Sharing.{all, allowed};

use mo_num::{Memory, Sequence};
use std::alloc::Global;

/// What the values of a type need, so that they may be sent or compared.
pub(crate) struct Needs {
    /// Whether nothing makes it so.
    pub(crate) never: bool,
    /// The type parameters of which it has to be so.
    pub(crate) parameters: Sequence<u32>,
}

// Written here, so that it is proved here, and not again in each function that lets needs go.
impl Drop for Needs {
    fn drop(self) {
        let Needs {
            never: _never,
            parameters: _parameters,
        } = self;
    }
}

/// Whether the number is in the list. If it is, it changes nothing to ask for it once more.
fn has(list: &[u32], number: u32) -> bool
    ensures { IsTrue result → (x : ℕ → Bool) → all x list.now ≡ (all x list.now && x number) }
{
    for one in list {
        if *one == number {
            return true;
        }
    }
    false
}

impl Needs {
    /// Nothing is needed. Takes no memory.
    pub(crate) fn nothing(alloc: Global) -> Needs
        ensures { (x : ℕ → Bool) → allowed x result ≡ true }
    {
        Needs {
            never: false,
            parameters: Sequence::new(alloc),
        }
    }

    /// Nothing makes it so. Takes no memory.
    pub(crate) fn never(alloc: Global) -> Needs
        ensures { (x : ℕ → Bool) → allowed x result ≡ false }
    {
        Needs {
            never: true,
            parameters: Sequence::new(alloc),
        }
    }

    /// It is so where it is so of a type parameter.
    pub(crate) fn parameter(alloc: Global, number: u32) -> Result<Needs, Memory>
        ensures { IfOk result (λ made. (x : ℕ → Bool) → allowed x made ≡ x number) }
    {
        let mut made = Needs::nothing(alloc);
        made.add_parameter(number)?;
        Ok(made)
    }

    /// A type parameter of which it has to be so besides.
    pub(crate) fn add_parameter(&mut self, number: u32) -> Result<(), Memory>
        ensures { OnOk result ((x : ℕ → Bool) → allowed x self.new ≡ (allowed x self.old && x number)) }
    {
        if has(self.parameters.as_slice(), number) {
            return Ok(());
        }
        self.parameters.push(number)
    }

    /// All that is needed besides.
    pub(crate) fn add(&mut self, more: &Needs) -> Result<(), Memory>
        ensures { OnOk result ((x : ℕ → Bool) → allowed x self.new ≡ (allowed x self.old && allowed x more.now)) }
    {
        if more.never {
            self.never = true;
            return Ok(());
        }
        for number in more.parameters.as_slice() {
            self.add_parameter(*number)?;
        }
        Ok(())
    }

    /// A copy.
    pub(crate) fn copy(&self, alloc: Global) -> Result<Needs, Memory>
        ensures { IfOk result (λ made. (x : ℕ → Bool) → allowed x made ≡ allowed x self.now) }
    {
        Ok(Needs {
            never: self.never,
            parameters: Sequence::from_vec(Vec::from_slice(alloc, self.parameters.as_slice())?),
        })
    }

    /// Whether no more than this is needed.
    pub(crate) fn covers(&self, other: &Needs) -> bool
        ensures { IsTrue result → (x : ℕ → Bool) → allowed x self.now ≡ true → allowed x other.now ≡ true }
    {
        if self.never {
            return true;
        }
        if other.never {
            return false;
        }
        for number in other.parameters.as_slice() {
            if !has(self.parameters.as_slice(), *number) {
                return false;
            }
        }
        true
    }

    /// Whether nothing at all is needed: it is so even where it is so of no type parameter.
    pub(crate) fn is_nothing(&self) -> bool
        ensures { result ≡ allowed (λ _. false) self.now }
    {
        !self.never && self.parameters.is_empty()
    }
}
