//! Indexes in groups.
ghost use Rattle.std.specs.Prelude.{◌≡◌, ◌+◌, ◌++◌, ◌∷◌, ◌<◌, ◌≤◌, [], ℕ, IfOk, OnOk, cond, length, nat_eq, replicate, slice_index_or};
ghost use Rattle.kernel_groups.specs.Indexes.{IsGrouped};

use mo_num::{Memory, Sequence};
use std::alloc::Global;
use std::marker::Model;

/// For each number from 0 on the indexes of a group, in order.
pub struct Groups {
    groups: Vec<Sequence<usize>>,
}

// Written here, so that it is proved here, and not again in each crate that lets groups go.
impl Drop for Groups {
    fn drop(self) {
        let Groups { groups: _groups } = self;
    }
}

impl Model for Groups {
    ghost use Rattle.std.specs.Prelude.{List, ℕ};

    ghost Value = { List (List ℕ) };

    ghost view = { λ g. g.groups.items };
}

impl Groups {
    /// The group of a number.
    pub fn at(&self, number: usize) -> &[usize]
        ensures { result.now ≡ slice_index_or self.now number [] }
    {
        match self.groups.get(number) {
            Some(group) => group.as_slice(),
            None => &[],
        }
    }
}

/// So many groups of nothing.
fn no_groups(alloc: Global, count: usize) -> Result<Vec<Sequence<usize>>, Memory>
    ensures { IfOk result (λ made. made.items ≡ replicate count []) }
{
    let mut groups = Vec::new(alloc);
    for _count in 0..count {
        groups.push(Sequence::new(alloc))?;
    }
    Ok(groups)
}

/// Adds an index to the group of this number, if there is one.
fn put(groups: &mut [Sequence<usize>], number: usize, index: usize) -> Result<(), Memory>
    ensures { (n : ℕ) → OnOk result (n < length groups.old → slice_index_or groups.new n [] ≡ slice_index_or groups.old n [] ++ cond (nat_eq number n) (index ∷ []) []) }
{
    if number < groups.len() {
        groups[number].push(index)?;
    }
    Ok(())
}

/// The indexes of a list, each in the group of the number that stands there; a number above the length of the list has no group. Takes the time
/// of one walk over the list.
pub fn groups_of(alloc: Global, numbers: &[usize]) -> Result<Groups, Memory>
    ensures { IfOk result (λ made. IsGrouped numbers.now made) }
{
    let mut groups = no_groups(alloc, numbers.len() + 1)?;
    for index in 0..numbers.len() {
        put(&mut groups, numbers[index], index)?;
    }
    Ok(Groups { groups })
}
