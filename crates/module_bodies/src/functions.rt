//! The functions of a program's bodies.
ghost use Rattle.std.specs.Prelude.{◌≡◌, ◌++◌, ◌∷◌, [], ℕ, List, length, map, IfOk, OnOk};
ghost use Rattle.core_ir.specs.ProgramView.{flat};
ghost use Rattle.low_ir.specs.Flat.{flat_function};
ghost use Rattle.low_emit.specs.Modules.{Routine};
ghost use Rattle.body_lists.specs.Known.{link_of, plan_of};
ghost use Rattle.module_bodies.specs.Bodies.{IsOf, bodies_of, listed, listed_all, listed_groups, listed_methods};

use body_lists::{Known, function_of};
use core_ir::{CodeBody, Flat, Group, Method};
use low_ir::LowFunction;
use mo_num::{Memory, Sequence};
use std::alloc::Global;

fn push_body(
    alloc: Global,
    known: &Known,
    members: u32,
    body: &CodeBody,
    list: &mut Sequence<LowFunction>,
) -> Result<(), Memory>
    ensures { OnOk result ((functions sees : ℕ) → list.new ≡ list.old ++ listed (plan_of known.now) (link_of known.now) members functions sees body.now ∷ []) }
{
    let made = function_of(alloc, known, members, body)?;
    list.push(made)?;
    Ok(())
}

fn push_bodies(
    alloc: Global,
    known: &Known,
    members: u32,
    bodies: &[CodeBody],
    list: &mut Sequence<LowFunction>,
) -> Result<(), Memory>
    ensures { OnOk result ((functions sees : ℕ) → list.new ≡ list.old ++ map (listed (plan_of known.now) (link_of known.now) members functions sees) bodies.now) }
{
    for body in bodies {
        push_body(alloc, known, members, body, list)?;
    }
    Ok(())
}

fn push_group(
    alloc: Global,
    known: &Known,
    group: &Group<CodeBody>,
    list: &mut Sequence<LowFunction>,
) -> Result<(), Memory>
    ensures { OnOk result (list.new ≡ list.old ++ map (listed (plan_of known.now) (link_of known.now) (length group.now.bodies) (length group.now.bodies) group.now.sees) group.now.bodies) }
{
    let bodies = group.bodies.as_slice();
    let Ok(members) = u32::try_from(bodies.len()) else {
        return Err(Memory);
    };
    push_bodies(alloc, known, members, bodies, list)?;
    Ok(())
}

fn push_groups(
    alloc: Global,
    known: &Known,
    groups: &[Group<CodeBody>],
    list: &mut Sequence<LowFunction>,
) -> Result<(), Memory>
    ensures { OnOk result (list.new ≡ list.old ++ listed_groups (plan_of known.now) (link_of known.now) groups.now) }
{
    for group in groups {
        push_group(alloc, known, group, list)?;
    }
    Ok(())
}

fn push_methods(
    alloc: Global,
    known: &Known,
    methods: &[Method<CodeBody>],
    list: &mut Sequence<LowFunction>,
) -> Result<(), Memory>
    ensures { OnOk result (list.new ≡ list.old ++ listed_methods (plan_of known.now) (link_of known.now) methods.now) }
{
    for method in methods {
        push_body(alloc, known, 0, &method.body, list)?;
    }
    Ok(())
}

fn list_all(alloc: Global, known: &Known, program: &Flat) -> Result<Sequence<LowFunction>, Memory>
    ensures { IfOk result (λ made. made ≡ listed_all (plan_of known.now) (link_of known.now) program.now) }
{
    let mut list = Sequence::new(alloc);
    push_groups(alloc, known, program.program.groups.as_slice(), &mut list)?;
    push_methods(alloc, known, program.program.methods.as_slice(), &mut list)?;
    push_body(alloc, known, 0, &program.program.start, &mut list)?;
    Ok(list)
}

/// The functions of the groups, of the methods and of the start of a program, in the order of its module, by what is known of that.
pub fn functions_of(
    alloc: Global,
    known: &Known,
    program: &Flat,
) -> Result<Sequence<LowFunction>, Memory>
    ensures { IfOk result (λ made. (more : List Routine) (own : ℕ) → IsOf (flat program.now) more own known.now → made ≡ map flat_function (bodies_of (flat program.now) more own)) }
{
    let list = list_all(alloc, known, program)?;
    Ok(list)
}
