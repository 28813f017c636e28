//! One instruction after the other, with the heights of operands (WebAssembly Core 1.0, section 3.3).
ghost use Rattle.std.specs.Prelude.{◌≡◌, ◌<◌, ◌≤◌, ◌-◌, ◌^◌, OnOk};
ghost use Rattle.wasm_steps.specs.Steps.{label};
ghost use Rattle.wasm_layout.specs.Arities.{count_of};
ghost use Rattle.wasm_layout.specs.Passes.{base_of, without, emptied, label_at, step_at, on, enter, block, repeat, close, call, branch_if, advance};

use crate::arity::{Arities, Arity, arity_at, count};
use crate::effect::{given, taken};
use crate::exits::{Exit, next_exit, take_exit};
use crate::stack::Stack;
use mo_num::Memory;
use wasm_steps::{Label, Step, step_of};
use wasm_tree::Op;

/// A block that is open: its label, and whether it leaves a result.
#[derive(Clone, Copy, Debug, PartialEq, Eq)]
pub struct Open {
    pub label: Label,
    pub result: bool,
}

/// A body as a whole: the place where it ends, and whether it leaves a result.
#[derive(Clone, Copy, Debug, PartialEq, Eq)]
pub struct Body {
    pub finish: usize,
    pub result: bool,
}

/// Where the pass through a body stands: the place of the next step, the exits of the blocks to come, the open blocks,
/// the height of operands, the greatest one so far, and how many blocks stood one in another.
#[derive(Drop)]
pub struct Pass {
    pub place: usize,
    pub exits: Stack<Exit>,
    pub opens: Stack<Open>,
    pub top: usize,
    pub peak: usize,
    pub nesting: usize,
}

/// The place with so many steps behind it.
fn target(finish: usize, behind: u32) -> u32
    requires { finish < 2 ^ 32 }
    ensures { result ≡ finish - behind }
{
    finish.saturating_sub(behind as usize) as u32
}

/// The label there, above so many operands, which keeps one on top of them or none.
pub fn label_to(to: u32, height: usize, keep: bool) -> Label
    requires { height < 2 ^ 32 }
    ensures { result ≡ label to height (count_of keep) }
{
    Label {
        to,
        height: height as u32,
        keep: count(keep) as u32,
    }
}

impl Pass {
    /// The height at which the innermost block begins.
    fn base(&self) -> usize
        ensures { result ≡ base_of self.now.opens }
    {
        match self.opens.get(0) {
            Some(open) => open.label.height as usize,
            None => 0,
        }
    }

    /// The height when so many operands are taken. Nothing is taken that the block does not have.
    fn without(&self, count: usize) -> usize
        ensures value { result ≡ without self.now count }
        ensures below { result ≤ self.now.top }
    {
        self.top - count.min(self.top.saturating_sub(self.base()))
    }

    /// The height when all operands of the block are taken.
    fn emptied(&self) -> usize
        ensures value { result ≡ emptied self.now }
        ensures below { result ≤ self.now.top }
    {
        self.top.min(self.base())
    }

    /// The label with this number.
    fn label(&self, label: u32) -> Label
        ensures { result ≡ label_at self.now.opens label }
    {
        match self.opens.get(label as usize) {
            Some(open) => open.label,
            None => Label {
                to: 0,
                height: 0,
                keep: 0,
            },
        }
    }

    /// The step of an instruction. The end of a block takes none.
    pub fn step(&self, body: Body, op: Op) -> Option<Step>
        requires { body.finish < 2 ^ 32 }
        ensures { result ≡ step_at body self.now op }
    {
        match op {
            Op::Plain(plain) => Some(step_of(plain)),
            Op::Unreachable => Some(Step::Unreachable),
            Op::Block(_) | Op::Loop(_) => Some(Step::Enter),
            Op::If(_) => Some(Step::Test(target(body.finish, next_exit(&self.exits).otherwise))),
            Op::Else => Some(Step::Jump(self.label(0).to)),
            Op::End => None,
            Op::Br(label) => Some(Step::Br(self.label(label))),
            Op::BrIf(label) => Some(Step::BrIf(self.label(label))),
            Op::BrTable(count) => Some(Step::BrTable(count)),
            Op::Target(label) => Some(Step::Entry(self.label(label))),
            Op::Return => Some(Step::Return(count(body.result) as u32)),
            Op::Call(function) => Some(Step::Call(function)),
            Op::CallIndirect(signature) => Some(Step::CallIndirect(signature)),
        }
    }

    /// After one step, with so many operands.
    fn on(&mut self, top: usize)
        requires { self.old.place < usize.MAX }
        ensures { self.new ≡ on self.old top }
    {
        self.place += 1;
        self.top = top;
        self.peak = self.peak.max(top);
    }

    /// A block begins above so many operands.
    fn enter(&mut self, top: usize, block: Open) -> Result<(), Memory>
        requires { self.old.place < usize.MAX }
        ensures { OnOk result (self.new ≡ enter self.old top block) }
    {
        self.nesting = self.nesting.max(self.opens.len());
        self.opens.push(block)?;
        self.on(top);
        Ok(())
    }

    /// A block or an `if` begins, whose label is at its end.
    fn block(&mut self, body: Body, top: usize, leaves: bool) -> Result<(), Memory>
        requires finish { body.finish < 2 ^ 32 }
        requires place { self.old.place < usize.MAX }
        requires top { top < 2 ^ 32 }
        ensures { OnOk result (self.new ≡ block body self.old top leaves) }
    {
        let exit = take_exit(&mut self.exits);
        let label = label_to(target(body.finish, exit.end), top, leaves);
        self.enter(
            top,
            Open {
                label,
                result: leaves,
            },
        )
    }

    /// A loop begins, whose label is its own step.
    fn repeat(&mut self, leaves: bool) -> Result<(), Memory>
        requires place { self.old.place < 2 ^ 32 }
        requires top { self.old.top < 2 ^ 32 }
        ensures { OnOk result (self.new ≡ repeat self.old leaves) }
    {
        let label = label_to(self.place as u32, self.top, false);
        self.enter(
            self.top,
            Open {
                label,
                result: leaves,
            },
        )
    }

    /// The innermost block ends with its results.
    fn close(&mut self)
        requires { self.old.top < usize.MAX }
        ensures { self.new ≡ close self.old }
    {
        let below = self.emptied();
        let leaves = match self.opens.pop() {
            Some(open) => open.result,
            None => false,
        };
        self.top = below + count(leaves);
        self.peak = self.peak.max(self.top);
    }

    /// After a call that takes so many operands besides the parameters.
    fn call(&mut self, besides: usize, arity: Arity)
        requires place { self.old.place < usize.MAX }
        requires top { self.old.top < 2 ^ 32 }
        ensures { self.new ≡ call self.old besides arity }
    {
        let below = self.without(arity.params.saturating_add(besides));
        self.on(below + count(arity.result));
    }

    /// After a conditional branch, which takes an operand and what its label takes, and gives the latter back. In code that
    /// is never reached, it may give back what was never there.
    fn branch_if(&mut self, label: u32)
        requires place { self.old.place < usize.MAX }
        requires top { self.old.top < 2 ^ 32 }
        ensures { self.new ≡ branch_if self.old label }
    {
        let kept = self.label(label).keep as usize;
        let below = self.without(1 + kept);
        self.on(below + kept);
    }

    /// After an instruction.
    pub fn advance(&mut self, arities: &Arities, body: Body, op: Op) -> Result<(), Memory>
        requires finish { body.finish < 2 ^ 32 }
        requires place { self.old.place < 2 ^ 32 }
        requires top { self.old.top < 2 ^ 32 }
        ensures { OnOk result (self.new ≡ advance arities.now body op self.old) }
    {
        match op {
            Op::Plain(plain) => self.on(self.without(taken(plain)) + given(plain)),
            Op::Unreachable | Op::Else | Op::Br(_) | Op::BrTable(_) | Op::Return => {
                self.on(self.emptied())
            }
            Op::Block(kind) => self.block(body, self.top, kind.is_some())?,
            Op::Loop(kind) => self.repeat(kind.is_some())?,
            Op::If(kind) => self.block(body, self.without(1), kind.is_some())?,
            Op::End => self.close(),
            Op::BrIf(label) => self.branch_if(label),
            Op::Target(_) => self.on(self.top),
            Op::Call(function) => self.call(0, arity_at(arities.functions.as_slice(), function)),
            Op::CallIndirect(signature) => {
                self.call(1, arity_at(arities.types.as_slice(), signature))
            }
        }
        Ok(())
    }
}
