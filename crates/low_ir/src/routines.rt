//! The routines of a run time.
ghost use Rattle.std.specs.Prelude.{◌≡◌, ◌++◌, ◌∷◌, [], ℕ, List, take, IfOk, OnOk, OnErr};
ghost use Rattle.low_ir.specs.declared.routines.Routine.{Routine};
ghost use Rattle.low_ir.specs.Routines.{IsNew, AreNew};

use crate::LowOp;
use mo_num::{Memory, Sequence};
use std::alloc::Global;
use std::marker::Model;
use wasm_tree::ValueType;

/// A routine: the number of its line in the table of a run time, its kinds, and its body.
#[derive(Drop)]
pub struct Routine {
    pub line: u32,
    pub params: Sequence<ValueType>,
    pub locals: Sequence<ValueType>,
    pub result: Option<ValueType>,
    pub body: Sequence<LowOp>,
}

/// Routines in an order, which contracts see as their list.
pub struct Routines {
    list: Vec<Routine>,
}

impl Drop for Routines {
    fn drop(self) {
        let Routines { list: _list } = self;
    }
}

impl Model for Routines {
    ghost Value = { List Routine };

    ghost view = { λ r. r.list.items };
}

impl Routines {
    /// The routines in their order.
    pub fn as_slice(&self) -> &[Routine]
        ensures { result.now ≡ self.now }
    {
        self.list.as_slice()
    }
}

/// Collects routines, each by a line of its own. Contracts see it as the list of those that were added.
pub struct Builder {
    list: Vec<Routine>,
}

impl Drop for Builder {
    fn drop(self) {
        let Builder { list: _list } = self;
    }
}

impl Model for Builder {
    ghost Value = { List Routine };

    ghost view = { λ b. b.list.items };
}

/// A list of the same items.
pub fn copied<T: Copy + Drop>(alloc: Global, items: &[T]) -> Result<Sequence<T>, Memory>
    ensures { IfOk result (λ copy. copy ≡ items.now) }
{
    let mut copy = Sequence::new(alloc);
    for item in items {
        copy.push(*item)?;
    }
    Ok(copy)
}

fn copied_routine(alloc: Global, routine: &Routine) -> Result<Routine, Memory>
    ensures { IfOk result (λ copy. copy ≡ routine.now) }
{
    Ok(Routine {
        line: routine.line,
        params: copied(alloc, routine.params.as_slice())?,
        locals: copied(alloc, routine.locals.as_slice())?,
        result: routine.result,
        body: copied(alloc, routine.body.as_slice())?,
    })
}

impl Builder {
    /// No routine. Takes no memory.
    pub fn new(alloc: Global) -> Self
        ensures { result ≡ [] }
    {
        Builder {
            list: Vec::new(alloc),
        }
    }

    /// Adds one routine, by whose line none is there. After an error the routines are unchanged.
    pub fn push(&mut self, routine: Routine) -> Result<(), Memory>
        requires { IsNew routine.line self.old }
        ensures ok { OnOk result (self.new ≡ self.old ++ routine ∷ []) }
        ensures err { OnErr result (self.new ≡ self.old) }
    {
        self.list.push(routine)?;
        Ok(())
    }

    /// Adds all routines in their order, by none of whose lines one is there. After an error the first of them may have been
    /// added.
    pub fn append(&mut self, alloc: Global, more: &Routines) -> Result<(), Memory>
        requires { AreNew more.now self.old }
        ensures ok { OnOk result (self.new ≡ self.old ++ more.now) }
        ensures err { OnErr result ((count : ℕ) × (self.new ≡ self.old ++ take count more.now)) }
    {
        for routine in more.as_slice() {
            let copy = copied_routine(alloc, routine)?;
            self.list.push(copy)?;
        }
        Ok(())
    }

    /// The routines in the order in which they were added.
    pub fn finish(self) -> Routines
        ensures { result ≡ self }
    {
        let Builder { list } = self;
        Routines { list }
    }
}
