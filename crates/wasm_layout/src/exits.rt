//! Where blocks end, found from the end of the code on.
ghost use Rattle.std.specs.Prelude.{◌≡◌, ◌<◌, ◌≤◌, ◌-◌, ◌^◌, OnOk, IfOk, length};
ghost use Rattle.wasm_layout.specs.Ends.{none, first_exit, without_first, back, backs};

use crate::stack::Stack;
use mo_num::Memory;
use std::alloc::Global;
use wasm_tree::Op;

/// How many steps of the body stand behind the end of a block, and behind the place where an `if` goes on whose
/// operand is 0.
#[derive(Clone, Copy, Debug, PartialEq, Eq)]
pub struct Exit {
    pub otherwise: u32,
    pub end: u32,
}

/// What is known of the code from a place on: how many steps it takes, the ends whose beginnings come before it, and the
/// exits of the blocks and `if`s that begin in it, each the first one on top.
#[derive(Drop)]
pub struct Exits {
    pub behind: u32,
    pub open: Stack<Exit>,
    pub found: Stack<Exit>,
}

/// The first exit.
pub fn next_exit(exits: &Stack<Exit>) -> Exit
    ensures { result ≡ first_exit exits.now }
{
    match exits.get(0) {
        Some(exit) => exit,
        None => Exit {
            otherwise: 0,
            end: 0,
        },
    }
}

/// Takes the first exit.
pub fn take_exit(exits: &mut Stack<Exit>) -> Exit
    ensures exit { result ≡ first_exit exits.old }
    ensures rest { exits.new ≡ without_first exits.old }
{
    match exits.pop() {
        Some(exit) => exit,
        None => Exit {
            otherwise: 0,
            end: 0,
        },
    }
}

impl Exits {
    /// One instruction before the others.
    fn back(&mut self, op: Op) -> Result<(), Memory>
        requires { self.old.behind < 2 ^ 32 - 1 }
        ensures { OnOk result (self.new ≡ back op self.old) }
    {
        match op {
            Op::End => {
                self.open.push(Exit {
                    otherwise: self.behind,
                    end: self.behind,
                })?;
                return Ok(());
            }
            Op::Else => {
                let exit = take_exit(&mut self.open);
                self.open.push(Exit {
                    otherwise: self.behind,
                    end: exit.end,
                })?;
            }
            Op::Block(_) | Op::If(_) => {
                let exit = take_exit(&mut self.open);
                self.found.push(exit)?;
            }
            Op::Loop(_) => {
                take_exit(&mut self.open);
            }
            _ => {}
        }
        self.behind += 1;
        Ok(())
    }
}

/// The exits of all blocks of a body.
pub fn find_exits(alloc: Global, ops: &[Op]) -> Result<Exits, Memory>
    requires { length ops.now < 2 ^ 32 }
    ensures found { IfOk result (λ found. found ≡ backs ops.now none) }
    ensures few { IfOk result (λ found. found.behind ≤ length ops.now) }
{
    let mut exits = Exits {
        behind: 0,
        open: Stack::new(alloc),
        found: Stack::new(alloc),
    };
    let mut place = ops.len();
    while place > 0 {
        place -= 1;
        exits.back(ops[place])?;
    }
    Ok(exits)
}
