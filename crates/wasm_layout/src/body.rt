//! A body as steps.
ghost use Rattle.std.specs.Prelude.{◌≡◌, ◌<◌, ◌+◌, ◌++◌, ◌∷◌, [], ◌≤◌, ◌^◌, IfOk, OnOk, length};
ghost use Rattle.wasm_layout.specs.Passes.{IsWithin, step_at, one, advance, advances, steps_of};
ghost use Rattle.wasm_layout.specs.Bodies.{body_of, begun_at, body_steps, extent_of};

use crate::arity::Arities;
use crate::exits::find_exits;
use crate::pass::{Body, Open, Pass, label_to};
use crate::stack::Stack;
use mo_num::Memory;
use std::alloc::Global;
use wasm_steps::Step;
use wasm_tree::Op;

/// The operands and blocks of a body.
#[derive(Clone, Copy, Debug, PartialEq, Eq)]
pub struct Extent {
    pub height: usize,
    pub nesting: usize,
}

impl Extent {
    /// The stack words of a frame with so many parameters and locals.
    pub fn words(self, params: usize, locals: usize) -> usize
        requires params { params < 2 ^ 63 }
        requires locals { locals < 2 ^ 32 }
        requires height { self.height < 2 ^ 32 }
        requires nesting { self.nesting < 2 ^ 32 }
        ensures { result ≡ 8 + params + locals + self.height + self.nesting }
    {
        8 + params + locals + self.height + self.nesting
    }
}

/// Adds the step of an instruction.
fn lay_op(
    arities: &Arities,
    body: Body,
    op: Op,
    pass: &mut Pass,
    steps: &mut Vec<Step>,
) -> Result<(), Memory>
    requires finish { body.finish < 2 ^ 32 }
    requires place { pass.old.place < 2 ^ 32 }
    requires top { pass.old.top < 2 ^ 32 }
    ensures pass { OnOk result (pass.new ≡ advance arities.now body op pass.old) }
    ensures steps { OnOk result (steps.new.items ≡ steps.old.items ++ one (step_at body pass.old op)) }
{
    let step = pass.step(body, op);
    pass.advance(arities, body, op)?;
    match step {
        Some(step) => steps.push(step)?,
        None => {}
    }
    Ok(())
}

/// Adds the steps of the instructions.
fn lay_ops(
    arities: &Arities,
    body: Body,
    ops: &[Op],
    pass: &mut Pass,
    steps: &mut Vec<Step>,
) -> Result<(), Memory>
    requires finish { body.finish < 2 ^ 32 }
    requires few { pass.old.place + length ops.now < 2 ^ 32 }
    requires begins { IsWithin pass.old.place 0 pass.old }
    ensures pass { OnOk result (pass.new ≡ advances arities.now body ops.now pass.old) }
    ensures steps { OnOk result (steps.new.items ≡ steps.old.items ++ steps_of arities.now body ops.now pass.old) }
{
    for op in ops {
        lay_op(arities, body, *op, pass, steps)?;
    }
    Ok(())
}

/// A body at a place, before its first instruction.
fn begin(alloc: Global, place: usize, leaves: bool, ops: &[Op]) -> Result<(Body, Pass), Memory>
    requires { place + length ops.now < 2 ^ 32 }
    ensures { IfOk result (λ begun. (begun.0 ≡ body_of place leaves ops.now) × (begun.1 ≡ begun_at place leaves ops.now)) }
{
    let exits = find_exits(alloc, ops)?;
    let finish = place + exits.behind as usize;
    let mut opens = Stack::new(alloc);
    opens.push(Open {
        label: label_to(finish as u32, 0, leaves),
        result: leaves,
    })?;
    let pass = Pass {
        place,
        exits: exits.found,
        opens,
        top: 0,
        peak: 0,
        nesting: 0,
    };
    Ok((
        Body {
            finish,
            result: leaves,
        },
        pass,
    ))
}

/// Adds the steps of a body.
pub fn lay_body(
    alloc: Global,
    arities: &Arities,
    leaves: bool,
    ops: &[Op],
    steps: &mut Vec<Step>,
) -> Result<Extent, Memory>
    requires { length steps.old.items + length ops.now + 1 < 2 ^ 32 }
    ensures steps { OnOk result (steps.new.items ≡ steps.old.items ++ body_steps arities.now (length steps.old.items) leaves ops.now) }
    ensures extent { IfOk result (λ extent. extent ≡ extent_of arities.now (length steps.old.items) leaves ops.now) }
    ensures few { IfOk result (λ extent. (extent.height < 2 ^ 32) × (extent.nesting < 2 ^ 32)) }
    ensures longer { OnOk result (length steps.new.items ≤ length steps.old.items + length ops.now + 1) }
{
    let (body, mut pass) = begin(alloc, steps.len(), leaves, ops)?;
    lay_ops(arities, body, ops, &mut pass, steps)?;
    steps.push(Step::Finish)?;
    Ok(Extent {
        height: pass.peak,
        nesting: pass.nesting,
    })
}
