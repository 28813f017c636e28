//! Programs of structured code.
ghost use Rattle.std.specs.Prelude.{◌≡◌, IfOk, map};
ghost use Rattle.core_ir.specs.ProgramView.{core, split_core};
ghost use Rattle.core_laws.specs.Split.{split_group as group_split, split_method as method_split, split_program};
ghost use Rattle.suspend_split.specs.Makes.{size_of};
ghost use Rattle.suspend_split.specs.Parts.{SplitBy, code_group, code_method, core_group, core_method, sizes_of};
ghost use Rattle.suspend_split.specs.Runs.{DoesWithinTwice, KeepsFormed};

use crate::body::split_body;
use core_ir::{CodeBody, Core, CoreBody, Group, Method, Program, SplitCore};
use mo_num::{Memory, Sequence};
use std::alloc::Global;

// How many functions each group has.
fn group_sizes(alloc: Global, groups: &[Group<CoreBody>]) -> Result<Vec<u32>, Memory>
    ensures { IfOk result (λ sizes. sizes.items ≡ sizes_of groups.now) }
{
    let mut sizes = Vec::new(alloc);
    for group in groups {
        let Ok(size) = u32::try_from(group.bodies.len()) else {
            return Err(Memory);
        };
        sizes.push(size)?;
    }
    Ok(sizes)
}

fn split_group(
    alloc: Global,
    sizes: &[u32],
    group: &Group<CoreBody>,
) -> Result<Group<CodeBody>, Memory>
    ensures { IfOk result (λ made. code_group made ≡ group_split (size_of sizes.now) (core_group group.now)) }
{
    let sources = group.bodies.as_slice();
    let Ok(functions) = u32::try_from(sources.len()) else {
        return Err(Memory);
    };
    let mut bodies = Sequence::new(alloc);
    for body in sources {
        bodies.push(split_body(alloc, sizes, functions, group.sees, body)?)?;
    }
    Ok(Group {
        sees: group.sees,
        bodies,
    })
}

fn split_groups(
    alloc: Global,
    sizes: &[u32],
    groups: &[Group<CoreBody>],
) -> Result<Sequence<Group<CodeBody>>, Memory>
    ensures { IfOk result (λ made. map code_group made ≡ map (λ g. group_split (size_of sizes.now) (core_group g)) groups.now) }
{
    let mut made = Sequence::new(alloc);
    for group in groups {
        made.push(split_group(alloc, sizes, group)?)?;
    }
    Ok(made)
}

fn split_method(
    alloc: Global,
    sizes: &[u32],
    method: &Method<CoreBody>,
) -> Result<Method<CodeBody>, Memory>
    ensures { IfOk result (λ made. code_method made ≡ method_split (size_of sizes.now) (core_method method.now)) }
{
    Ok(Method {
        name: method.name.share()?,
        query: method.query,
        signature: method.signature.share()?,
        body: split_body(alloc, sizes, 0, 0, &method.body)?,
    })
}

fn split_methods(
    alloc: Global,
    sizes: &[u32],
    methods: &[Method<CoreBody>],
) -> Result<Sequence<Method<CodeBody>>, Memory>
    ensures { IfOk result (λ made. map code_method made ≡ map (λ m. method_split (size_of sizes.now) (core_method m)) methods.now) }
{
    let mut made = Sequence::new(alloc);
    for method in methods {
        made.push(split_method(alloc, sizes, method)?)?;
    }
    Ok(made)
}

fn split_by(alloc: Global, sizes: &[u32], program: &Program<CoreBody>) -> Result<SplitCore, Memory>
    ensures { IfOk result (λ made. SplitBy (size_of sizes.now) program.now made) }
{
    Ok(SplitCore {
        program: Program {
            types: program.types.share()?,
            groups: split_groups(alloc, sizes, program.groups.as_slice())?,
            methods: split_methods(alloc, sizes, program.methods.as_slice())?,
            stable: program.stable.share()?,
            save: split_body(alloc, sizes, 0, 0, &program.save)?,
            start: split_body(alloc, sizes, 0, 0, &program.start)?,
        },
    })
}

/// The same program as structured code over slots, in segments that go on behind an await. Where its bodies nest no more than they
/// have nodes, it does what the program does, at no more than twice the weight and no greater depth. Of a formed program it is a
/// formed one, which does so.
pub fn split(alloc: Global, program: &Core) -> Result<SplitCore, Memory>
    ensures split { IfOk result (λ made. split_core made ≡ split_program (core program.now)) }
    ensures same { IfOk result (λ made. DoesWithinTwice (core program.now) (split_core made)) }
    ensures formed { IfOk result (λ made. KeepsFormed (core program.now) (split_core made)) }
{
    let sizes = group_sizes(alloc, program.program.groups.as_slice())?;
    Ok(split_by(alloc, &sizes, &program.program)?)
}
