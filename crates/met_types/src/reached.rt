//! Terms with the numbers that they have in a graph.
ghost use Rattle.std.specs.Prelude.{◌≡◌, ◌≢◌, ◌↔◌, ◌∷◌, ◌++◌, ◌<◌, [], ℕ, length, slice_get, slice_set, Some, None, OnOk, OnErr, IfNone, IfSome};
ghost use Rattle.mo_types.specs.declared.node.TypeId.{TypeId};
ghost use Rattle.type_terms.specs.declared.form.TermId.{TermId as Term};
ghost use Rattle.met_types.specs.Reached.{IsMissing, SameNumbers};

use mo_num::Memory;
use mo_types::TypeId;
use std::alloc::Global;
use std::marker::Model;
use type_terms::TermId;

/// Terms in the order of their numbers in a graph, none twice. The number of each is found in constant time.
pub struct Reached {
    list: Vec<TermId>,
    numbers: Vec<Option<TypeId>>,
}

// Written here, so that it is proved here, and not again in each crate that lets such lists go.
impl Drop for Reached {
    fn drop(self) {
        let Reached {
            list: _list,
            numbers: _numbers,
        } = self;
    }
}

impl Model for Reached {
    ghost use Rattle.std.specs.Prelude.{List};
    ghost use Rattle.type_terms.specs.declared.form.TermId.{TermId};
    ghost use Rattle.met_types.specs.Reached.{Indexed};

    ghost Value = { List TermId };

    ghost view = { λ r. r.list.items };

    ghost invariant = { λ r. Indexed r.numbers.items r.list.items };
}

/// Makes room for the number of a term. The numbers that are kept stay.
fn make_room(numbers: &mut Vec<Option<TypeId>>, index: usize) -> Result<(), Memory>
    ensures same { SameNumbers numbers.old.items numbers.new.items }
    ensures room { OnOk result (index < length numbers.new.items) }
{
    while numbers.len() <= index {
        numbers.push(None)?;
    }
    Ok(())
}

/// Keeps the number of a term for which there is room.
fn keep(numbers: &mut Vec<Option<TypeId>>, index: usize, id: TypeId)
    requires { index < length numbers.old.items }
    ensures { numbers.new.items ≡ slice_set numbers.old.items index (Some id) }
{
    numbers[index] = Some(id);
}

impl Reached {
    /// No terms. Takes no memory.
    pub fn new(alloc: Global) -> Reached
        ensures { result ≡ [] }
    {
        Reached {
            list: Vec::new(alloc),
            numbers: Vec::new(alloc),
        }
    }

    /// The terms.
    pub fn as_slice(&self) -> &[TermId]
        ensures { result.now ≡ self.now }
    {
        self.list.as_slice()
    }

    /// The number of a term.
    pub fn find(&self, term: TermId) -> Option<TypeId>
        ensures there { IfSome result (λ id. slice_get self.now id.index ≡ Some term) }
        ensures missing { IfNone result (IsMissing self.now term) }
    {
        match self.numbers.get(term.index() as usize) {
            Some(number) => *number,
            None => None,
        }
    }

    /// Adds a term that is not there, with the next number. After an error the terms are as before.
    pub fn push(&mut self, term: TermId, id: TypeId) -> Result<(), Memory>
        requires next { id.index ≡ length self.old }
        requires missing { IsMissing self.old term }
        ensures ok { OnOk result (self.new ≡ self.old ++ term ∷ []) }
        ensures err { OnErr result (self.new ≡ self.old) }
    {
        let index = term.index() as usize;
        make_room(&mut self.numbers, index)?;
        self.list.push(term)?;
        keep(&mut self.numbers, index, id);
        Ok(())
    }
}
