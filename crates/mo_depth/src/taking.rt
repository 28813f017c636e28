//! What a token does to the room that a tree may take.
ghost use Rattle.std.specs.Prelude.{◌≡◌, ◌≤◌, OnOk, nat_le};
ghost use Rattle.mo_depth.specs.Rooms.{state};
ghost use Rattle.mo_depth.specs.Stack as spec;

use crate::bracket::Bracket;
use crate::effect::{Effect, effect_of, ends_angles, room_behind};
use crate::room::Room;
use mo_num::Memory;
use mo_parser_base::same_mark;
use mo_syntax::{Mark, TokenKind};
use std::alloc::Global;
use std::collections::VecDeque;

/// The most room.
const MOST: usize = 1_500;

fn closes(bracket: &Bracket, mark: Mark) -> bool
    ensures { result ≡ spec.closes bracket.now mark }
{
    match bracket.close {
        Some(close) => same_mark(close, mark),
        None => false,
    }
}

fn most(bracket: &Bracket) -> usize
    ensures { result ≡ spec.most bracket.now }
{
    let operands = bracket.operands.max(bracket.operand) as usize;
    (bracket.ended as usize).max(bracket.begun as usize + operands)
}

impl Room {
    pub(crate) fn new(alloc: Global) -> Room
        ensures { state result ≡ spec.begin }
    {
        Room {
            inner: Bracket {
                close: None,
                begun: 0,
                operand: 0,
                operands: 0,
                ended: 0,
            },
            outer: VecDeque::new(alloc),
            around: 0,
        }
    }

    fn is_there(&self) -> bool
        ensures { result ≡ nat_le (spec.room (state self.now)) 1500 }
    {
        let most = most(&self.inner);
        most <= MOST && self.around <= MOST - most
    }

    /// Asks whether there is so much room.
    pub(crate) fn ask(&self) -> Result<(), Memory>
        ensures { OnOk result (spec.room (state self.now) ≤ 1500) }
    {
        if self.is_there() { Ok(()) } else { Err(Memory) }
    }

    fn open(&mut self, close: Mark) -> Result<(), Memory>
        requires { spec.room (state self.old) ≤ 1500 }
        ensures { OnOk result (state self.new ≡ spec.opened (state self.old) close) }
    {
        self.outer.push_front(self.inner)?;
        self.around += self.inner.begun as usize + 2;
        self.inner = Bracket {
            close: Some(close),
            begun: 0,
            operand: 0,
            operands: 0,
            ended: 0,
        };
        Ok(())
    }

    fn begin(&mut self, room: u32)
        requires there { spec.room (state self.old) ≤ 1500 }
        requires small { room ≤ 2 }
        ensures { state self.new ≡ spec.begun (state self.old) room }
    {
        self.inner = Bracket {
            close: self.inner.close,
            begun: self.inner.begun + room,
            operand: 0,
            operands: self.inner.operands.max(self.inner.operand),
            ended: self.inner.ended,
        };
    }

    fn go_on(&mut self)
        requires { spec.room (state self.old) ≤ 1500 }
        ensures { state self.new ≡ spec.gone_on (state self.old) }
    {
        self.inner.operand += 1;
    }

    fn separate(&mut self)
        requires { spec.room (state self.old) ≤ 1500 }
        ensures { state self.new ≡ spec.separated (state self.old) }
    {
        self.inner = Bracket {
            close: self.inner.close,
            begun: 0,
            operand: 0,
            operands: 0,
            ended: most(&self.inner) as u32,
        };
    }

    // Behind the innermost bracket, with which an operand goes on that takes so much room beside.
    fn leave(&mut self, room: u32) -> Result<(), Memory>
        requires { spec.room (state self.old) ≤ 1500 }
        ensures { OnOk result (state self.new ≡ spec.left (state self.old) room) }
    {
        if let Some(bracket) = self.outer.pop_front() {
            self.around = self.around - bracket.begun as usize - 2;
            let inside = most(&self.inner) as u32 + 2;
            let Some(operand) = bracket.operand.max(inside).checked_add(room) else {
                return Err(Memory);
            };
            self.inner = Bracket {
                close: bracket.close,
                begun: bracket.begun,
                operand,
                operands: bracket.operands,
                ended: bracket.ended,
            };
        }
        Ok(())
    }

    fn close(&mut self, mark: Mark) -> Result<(), Memory>
        requires { spec.room (state self.old) ≤ 1500 }
        ensures { OnOk result (state self.new ≡ spec.closed (state self.old) mark) }
    {
        if closes(&self.inner, mark) {
            return self.leave(room_behind(mark));
        }
        self.begin(2);
        Ok(())
    }

    // Out of each `<` that stands open in the innermost bracket `( [ {`, or in the whole text.
    fn leave_angles(&mut self) -> Result<(), Memory>
        ensures at { OnOk result (state self.new ≡ spec.outside_angles (state self.old)) }
        ensures there { OnOk result (spec.room (state self.new) ≤ 1500) }
    {
        for _turn in 0..self.outer.len() {
            self.ask()?;
            if !closes(&self.inner, Mark::AngleClose) {
                return Ok(());
            }
            self.leave(0)?;
        }
        self.ask()
    }

    fn before(&mut self, kind: &TokenKind) -> Result<(), Memory>
        requires { spec.room (state self.old) ≤ 1500 }
        ensures at { OnOk result (state self.new ≡ spec.before_mark (state self.old) kind.now) }
        ensures there { OnOk result (spec.room (state self.new) ≤ 1500) }
    {
        if ends_angles(kind) {
            return self.leave_angles();
        }
        Ok(())
    }

    fn step(&mut self, effect: Effect) -> Result<(), Memory>
        requires there { spec.room (state self.old) ≤ 1500 }
        requires small { spec.IsSmall effect }
        ensures { OnOk result (state self.new ≡ spec.step (state self.old) effect) }
    {
        match effect {
            Effect::Opens(close) => self.open(close)?,
            Effect::Closes(mark) => self.close(mark)?,
            Effect::Separates => self.separate(),
            Effect::Begins(room) => self.begin(room),
            Effect::GoesOn => self.go_on(),
            Effect::Nothing => (),
        }
        Ok(())
    }

    /// Goes behind the token.
    pub(crate) fn take(&mut self, kind: &TokenKind) -> Result<(), Memory>
        requires { spec.room (state self.old) ≤ 1500 }
        ensures { OnOk result (state self.new ≡ spec.behind_token (state self.old) kind.now) }
    {
        self.before(kind)?;
        self.step(effect_of(kind))
    }
}
