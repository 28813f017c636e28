//! What can be left around an expression.
ghost use Rattle.std.specs.Prelude.{◌≡◌, ◌∷◌, [], List, drop, zero, IfOk, OnOk};
ghost use Rattle.desugaring.specs.Frames as frames;
ghost use Rattle.kernel_frames.specs.Leaves.{seen_exit, leaves};

use mo_num::{Bytes, Memory};
use std::alloc::Global;
use std::marker::Model;

/// What can be left.
pub enum Exit {
    /// A label.
    Labelled(Bytes),
    /// The body of a loop under a label, which `continue` leaves.
    Continued(Bytes),
    /// `do ?`
    Optional,
    /// The function.
    Returned,
}

// Written here, so that it is proved once.
impl Drop for Exit {
    fn drop(self) {
        match self {
            Exit::Labelled(_name) => {}
            Exit::Continued(_name) => {}
            Exit::Optional => {}
            Exit::Returned => {}
        }
    }
}

/// What is to be left.
#[derive(Clone, Copy)]
pub enum Leaving<'a> {
    /// The label of this name, by a `break`.
    Label(&'a [u8]),
    /// The body of the loop under the label of this name, by a `continue`.
    Loop(&'a [u8]),
    /// `do ?`, by a `!`.
    Optional,
    /// The function, by a `return`.
    Function,
}

/// What can be left, which contracts see as a list, the nearest first.
pub struct Exits {
    list: Vec<Exit>,
}

// Written here, so that it is proved once.
impl Drop for Exits {
    fn drop(self) {
        let Exits { list: _list } = self;
    }
}

impl Model for Exits {
    ghost use Rattle.std.specs.Prelude.{◌<◌, ◌^◌, List, length, map, reverse};
    ghost use Rattle.desugaring.specs.Frames.{Exit};
    ghost use Rattle.kernel_frames.specs.Leaves.{seen_exit};

    ghost Value = { List Exit };

    ghost view = { λ e. reverse (map seen_exit e.list.items) };

    ghost invariant = { λ e. length e.list.items < 2 ^ 32 };
}

/// Whether this is what is to be left.
fn is_wanted(wanted: Leaving<'_>, exit: &Exit) -> bool
    ensures { result ≡ leaves wanted.entry (seen_exit exit.now) }
{
    match (wanted, exit) {
        (Leaving::Label(name), Exit::Labelled(label)) => name == label.as_slice(),
        (Leaving::Loop(name), Exit::Continued(label)) => name == label.as_slice(),
        (Leaving::Optional, Exit::Optional) => true,
        (Leaving::Function, Exit::Returned) => true,
        _ => false,
    }
}

impl Exits {
    /// Nothing. Takes no memory.
    pub(crate) fn new(alloc: Global) -> Exits
        ensures { result ≡ [] }
    {
        Exits {
            list: Vec::new(alloc),
        }
    }

    /// How many stand between. It goes over them, and no more stand around an expression than it has levels.
    pub(crate) fn find(&self, wanted: Leaving<'_>) -> u32
        ensures { result ≡ frames.exit_from zero (leaves wanted.entry) self.now }
    {
        let mut left = self.list.len();
        let mut between = 0;
        while left > 0 {
            if is_wanted(wanted, &self.list[left - 1]) {
                return between;
            }
            left -= 1;
            between += 1;
        }
        between
    }

    /// Adds one, the nearest. There are never so many that their number is none of 32 bits.
    pub(crate) fn push(&mut self, exit: Exit) -> Result<(), Memory>
        ensures { OnOk result (self.new ≡ seen_exit exit ∷ self.old) }
    {
        if self.list.len() >= u32::MAX as usize {
            return Err(Memory);
        }
        self.list.push(exit)?;
        Ok(())
    }

    /// Takes the nearest away.
    pub(crate) fn pop(&mut self)
        ensures { self.new ≡ drop 1 self.old }
    {
        self.list.pop();
    }
}
