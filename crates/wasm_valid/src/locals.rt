//! The types of a body's locals.
ghost use Rattle.std.specs.Prelude.{◌≡◌, ◌+◌, ◌++◌, IfOk, slice_get};
ghost use Rattle.wasm_tree.specs.Rules.{grouped};
ghost use Rattle.wasm_valid.specs.Locals.{groups_of, AreEnds};

use mo_num::Memory;
use std::alloc::Global;
use std::marker::Model;
use wasm_tree::{Locals, ValueType};

/// Some locals of one type, with the index behind the last one.
#[derive(Clone, Copy, Debug, PartialEq, Eq)]
pub(crate) struct Group {
    pub(crate) locals: Locals,
    pub(crate) end: u64,
}

/// The types of parameters and locals. A body may have billions of locals in a few bytes, so that they stay in groups.
#[derive(Drop)]
pub(crate) struct LocalTypes {
    groups: Vec<Group>,
}

impl Model for LocalTypes {
    ghost use Rattle.std.specs.Prelude.{List};
    ghost use Rattle.wasm_tree.specs.Rules.{grouped};
    ghost use Rattle.wasm_tree.specs.declared.types.ValueType.{ValueType};
    ghost use Rattle.wasm_valid.specs.Locals.{groups_of, AreEnds};

    ghost Value = { List ValueType };

    ghost view = { λ l. grouped (groups_of l.groups.items) };

    ghost invariant = { λ l. AreEnds l.groups.items };
}

impl LocalTypes {
    /// Those of the parameters, and then those of the groups.
    pub(crate) fn new(
        alloc: Global,
        params: &[ValueType],
        groups: &[Locals],
    ) -> Result<LocalTypes, Memory>
        ensures { IfOk result (λ made. made ≡ params.now ++ grouped groups.now) }
    {
        let mut all: Vec<Group> = Vec::new(alloc);
        let mut end: u64 = 0;
        for kind in params {
            end = after(end, 1)?;
            let locals = Locals {
                count: 1,
                kind: *kind,
            };
            all.push(Group { locals, end })?;
        }
        for group in groups {
            end = after(end, group.count)?;
            all.push(Group {
                locals: *group,
                end,
            })?;
        }
        Ok(LocalTypes { groups: all })
    }

    /// The type of the local with this index.
    pub(crate) fn get(&self, local: u32) -> Option<ValueType>
        ensures { result ≡ slice_get self.now local }
    {
        local_in(self.groups.as_slice(), local)
    }
}

/// The end of a group that begins there. No machine has memory for so many groups that it would not fit.
fn after(end: u64, count: u32) -> Result<u64, Memory>
    ensures { IfOk result (λ sum. sum ≡ end + count) }
{
    match end.checked_add(count as u64) {
        None => Err(Memory),
        Some(sum) => Ok(sum),
    }
}

fn local_in(groups: &[Group], local: u32) -> Option<ValueType>
    requires { AreEnds groups.now }
    ensures { result ≡ slice_get (grouped (groups_of groups.now)) local }
{
    let mut low = 0;
    let mut high = groups.len();
    while low < high {
        let middle = low + (high - low) / 2;
        if groups[middle].end <= local as u64 {
            low = middle + 1;
        } else {
            high = middle;
        }
    }
    if low < groups.len() {
        Some(groups[low].locals.kind)
    } else {
        None
    }
}
