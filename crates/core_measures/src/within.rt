//! The test of a program.
ghost use Rattle.std.specs.Prelude.{◌≡◌, ◌+◌, ◌*◌, ◌≤◌, ◌&&◌, max, map, Decides, IfOk};
ghost use Rattle.core_ir.specs.Formed.{counted, counted_groups, counted_program};
ghost use Rattle.core_ir.specs.Programs.{Method as Described};
ghost use Rattle.core_ir.specs.Expressions.{Body};
ghost use Rattle.core_ir.specs.ProgramView.{core};
ghost use Rattle.core_ir.specs.View.{core_body};
ghost use Rattle.core_measures.specs.Sizes.{size_of};
ghost use Rattle.core_measures.specs.Within.{AllWithin, BodiesWithin, GroupsWithin, MethodsWithin, Within, WithinBody, WithinBy, WithinOuter, core_group, core_method, core_program, segments as segments_of};

use crate::measures::{Measures, sum};
use crate::paying::{all_names, are_paid};
use crate::sizes::group_sizes;
use crate::walk::expression_measures;
use core_ir::{Core, CoreBody, Group, Method, Program};
use mo_num::Memory;
use std::alloc::Global;

/// The most functions and places where bodies wait of a program.
const MOST_SEGMENTS: u32 = 90_000;

// Whether bodies are within their measures, and how many segments they have.
#[derive(Clone, Copy)]
struct Tested {
    within: bool,
    segments: u32,
}

const NO_BODIES: Tested = Tested {
    within: true,
    segments: 0,
};

fn both(one: Tested, others: Tested) -> Result<Tested, Memory>
    ensures within { IfOk result (λ t. t.within ≡ (one.within && others.within)) }
    ensures segments { IfOk result (λ t. t.segments ≡ one.segments + others.segments) }
{
    Ok(Tested {
        within: one.within && others.within,
        segments: sum(one.segments, others.segments)?,
    })
}

// Whether a body of so many nodes has room for the words of its frame.
fn has_room(measures: Measures, parameters: u32, nodes: u32) -> bool
    ensures { Decides result (parameters + measures.width + 2 * max 2 measures.arguments + measures.depth ≤ 4 * nodes + 50) }
{
    let values = u64::from(parameters) + u64::from(measures.width);
    let words = values + 2 * u64::from(measures.arguments.max(2)) + u64::from(measures.depth);
    words <= 4 * u64::from(nodes) + 50
}

// Whether it has, and nests no more than it has nodes.
fn has_outer_room(measures: Measures, parameters: u32, nodes: u32) -> bool
    ensures { Decides result ((measures.nest ≤ nodes) × (parameters + measures.width + 2 * max 2 measures.arguments + measures.depth ≤ 4 * nodes + 50)) }
{
    if measures.nest > nodes {
        return false;
    }
    has_room(measures, parameters, nodes)
}

// A body of a group.
fn body_tested(sizes: &[u32], body: &CoreBody) -> Result<Tested, Memory>
    ensures within { IfOk result (λ t. Decides t.within (WithinBody (size_of sizes.now) (core_body body.now))) }
    ensures segments { IfOk result (λ t. t.segments ≡ segments_of (core_body body.now)) }
{
    let measures = expression_measures(sizes, &body.expression)?;
    let segments = sum(1, measures.points)?;
    Ok(Tested {
        within: has_room(measures, body.parameters, body.nodes),
        segments,
    })
}

// A body where an execution begins or goes on.
fn outer_tested(sizes: &[u32], body: &CoreBody) -> Result<Tested, Memory>
    ensures within { IfOk result (λ t. Decides t.within (WithinOuter (size_of sizes.now) (core_body body.now))) }
    ensures segments { IfOk result (λ t. t.segments ≡ segments_of (core_body body.now)) }
{
    let measures = expression_measures(sizes, &body.expression)?;
    let segments = sum(1, measures.points)?;
    Ok(Tested {
        within: has_outer_room(measures, body.parameters, body.nodes),
        segments,
    })
}

fn bodies_tested(sizes: &[u32], bodies: &[CoreBody]) -> Result<Tested, Memory>
    ensures within { IfOk result (λ t. Decides t.within (AllWithin (size_of sizes.now) (map core_body bodies.now))) }
    ensures segments { IfOk result (λ t. t.segments ≡ counted segments_of (map core_body bodies.now)) }
{
    let mut all = NO_BODIES;
    let mut number = bodies.len();
    while number > 0 {
        number -= 1;
        let one = body_tested(sizes, &bodies[number])?;
        all = both(one, all)?;
    }
    Ok(all)
}

fn groups_tested(sizes: &[u32], groups: &[Group<CoreBody>]) -> Result<Tested, Memory>
    ensures within { IfOk result (λ t. Decides t.within (GroupsWithin (size_of sizes.now) (map core_group groups.now))) }
    ensures segments { IfOk result (λ t. t.segments ≡ counted_groups segments_of (map core_group groups.now)) }
{
    let mut all = NO_BODIES;
    let mut number = groups.len();
    while number > 0 {
        number -= 1;
        let one = bodies_tested(sizes, groups[number].bodies.as_slice())?;
        all = both(one, all)?;
    }
    Ok(all)
}

fn methods_tested(sizes: &[u32], methods: &[Method<CoreBody>]) -> Result<Tested, Memory>
    ensures within { IfOk result (λ t. Decides t.within (MethodsWithin (size_of sizes.now) (map core_method methods.now))) }
    ensures segments { IfOk result (λ t. t.segments ≡ counted segments_of (map (λ (m : Described Body). m.body) (map core_method methods.now))) }
{
    let mut all = NO_BODIES;
    let mut number = methods.len();
    while number > 0 {
        number -= 1;
        let one = outer_tested(sizes, &methods[number].body)?;
        all = both(one, all)?;
    }
    Ok(all)
}

// All bodies of a program whose groups have these sizes.
fn program_tested(sizes: &[u32], program: &Program<CoreBody>) -> Result<Tested, Memory>
    ensures within { IfOk result (λ t. Decides t.within (BodiesWithin (size_of sizes.now) (core_program program.now))) }
    ensures segments { IfOk result (λ t. t.segments ≡ counted_program segments_of (core_program program.now)) }
{
    let groups = groups_tested(sizes, program.groups.as_slice())?;
    let methods = methods_tested(sizes, program.methods.as_slice())?;
    let save = outer_tested(sizes, &program.save)?;
    let start = outer_tested(sizes, &program.start)?;
    let single = both(save, start)?;
    let outer = both(methods, single)?;
    both(groups, outer)
}

fn is_within_by(alloc: Global, sizes: &[u32], program: &Program<CoreBody>) -> Result<bool, Memory>
    ensures { IfOk result (λ yes. Decides yes (WithinBy (size_of sizes.now) (core_program program.now))) }
{
    let tested = program_tested(sizes, program)?;
    if !tested.within || tested.segments > MOST_SEGMENTS {
        return Ok(false);
    }
    let needs = all_names(alloc, sizes, program.groups.as_slice())?;
    are_paid(&needs, program.groups.as_slice())
}

/// Whether each body of a program has room for its frame and, where an execution begins or goes on in it, nests no more than it has nodes, each group pays
/// for what its functions name of what it sees, and the program has few enough segments. What is elaborated from sources that the checker accepts is known to be so in tests alone.
pub fn is_within(alloc: Global, program: &Core) -> Result<bool, Memory>
    ensures { IfOk result (λ yes. Decides yes (Within (core program.now))) }
{
    let sizes = group_sizes(alloc, program.program.groups.as_slice())?;
    is_within_by(alloc, &sizes, &program.program)
}
