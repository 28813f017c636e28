//! What bodies know of the module of a program.
ghost use Rattle.std.specs.Prelude.{◌≡◌, ◌++◌, ◌∷◌, [], ◌+◌, ℕ, List, length, map, suc, IfOk, OnOk};
ghost use Rattle.core_ir.specs.ProgramView.{flat};
ghost use Rattle.low_emit.specs.Modules.{Routine};
ghost use Rattle.module_bodies.specs.Bodies.{IsOf};

use body_lists::{GroupSizes, Known};
use core_ir::{CodeBody, Flat, Group};
use mo_num::Memory;
use operation_lists::ModuleLinks;
use program_texts::texts_of;
use std::alloc::Global;

fn sizes_of(alloc: Global, groups: &[Group<CodeBody>]) -> Result<GroupSizes, Memory>
    ensures { IfOk result (λ sizes. sizes ≡ map (λ g. length g.bodies) groups.now) }
{
    let mut sizes = GroupSizes::new(alloc);
    for group in groups {
        let Ok(size) = u32::try_from(group.bodies.len()) else {
            return Err(Memory);
        };
        sizes.push(size)?;
    }
    Ok(sizes)
}

// The actor itself and its methods come first among the names.
fn hidden_of(methods: usize) -> Result<u32, Memory>
    ensures { IfOk result (λ hidden. hidden ≡ suc methods) }
{
    let Ok(methods) = u32::try_from(methods) else {
        return Err(Memory);
    };
    match methods.checked_add(1) {
        Some(hidden) => Ok(hidden),
        None => Err(Memory),
    }
}

// Behind the types of the host, of entries and of routines.
fn arity_of(further: u32) -> Result<u32, Memory>
    ensures { IfOk result (λ first. first ≡ 46 + further) }
{
    match further.checked_add(46) {
        Some(first) => Ok(first),
        None => Err(Memory),
    }
}

/// What bodies know of the module of the program with so many further routines.
pub fn known_of(alloc: Global, program: &Flat, further: u32) -> Result<Known, Memory>
    ensures { IfOk result (λ known. (more : List Routine) (own : ℕ) → length more ≡ further → IsOf (flat program.now) more own known) }
{
    let texts = texts_of(alloc, program)?;
    let links = ModuleLinks::new(texts)?;
    let groups = sizes_of(alloc, program.program.groups.as_slice())?;
    let hidden = hidden_of(program.program.methods.len())?;
    let first_arity = arity_of(further)?;
    let types = program.program.types.share()?;
    Ok(Known {
        types,
        links,
        groups,
        hidden,
        first_arity,
    })
}
