//! What a token does to the brackets that are open.
ghost use Rattle.std.specs.Prelude.{◌≡◌, ◌≤◌, OnOk};
ghost use Rattle.mo_depth.specs.Depth as spec;
ghost use Rattle.mo_depth.specs.Nested.{standing};

use crate::frame::Frame;
use crate::nesting::Nesting;
use crate::role::Role;
use mo_num::Memory;
use mo_parser_base::same_mark;
use mo_syntax::Mark;
use std::alloc::Global;
use std::collections::VecDeque;

fn closes(frame: &Frame, mark: Mark) -> bool
    ensures { result ≡ spec.closes frame.now mark }
{
    match frame.close {
        Some(close) => same_mark(close, mark),
        None => false,
    }
}

impl Nesting {
    pub(crate) fn new(alloc: Global) -> Nesting
        ensures { standing result ≡ spec.begin }
    {
        Nesting {
            inner: Frame {
                close: None,
                count: 0,
            },
            outer: VecDeque::new(alloc),
            depth: 1,
        }
    }

    fn open(&mut self, close: Mark) -> Result<(), Memory>
        requires { self.old.depth ≤ 1000 }
        ensures { OnOk result (standing self.new ≡ spec.opened (standing self.old) close) }
    {
        self.outer.push_front(self.inner)?;
        self.inner = Frame {
            close: Some(close),
            count: 0,
        };
        self.depth += 1;
        Ok(())
    }

    fn count(&mut self)
        requires { self.old.depth ≤ 1000 }
        ensures { standing self.new ≡ spec.counted (standing self.old) }
    {
        self.inner.count += 1;
        self.depth += 1;
    }

    fn separate(&mut self)
        ensures { standing self.new ≡ spec.separated (standing self.old) }
    {
        self.depth -= self.inner.count;
        self.inner.count = 0;
    }

    fn leave(&mut self)
        requires { self.old.depth ≤ 1000 }
        ensures { standing self.new ≡ spec.left (standing self.old) }
    {
        match self.outer.pop_front() {
            Some(frame) => {
                self.depth = self.depth - self.inner.count + 1;
                self.inner = Frame {
                    close: frame.close,
                    count: frame.count + 2,
                };
            }
            None => self.count(),
        }
    }

    fn close(&mut self, mark: Mark)
        requires { self.old.depth ≤ 1000 }
        ensures { standing self.new ≡ spec.closed (standing self.old) mark }
    {
        if closes(&self.inner, mark) {
            self.leave();
        } else {
            self.count();
        }
    }

    pub(crate) fn step(&mut self, role: Role) -> Result<(), Memory>
        requires { self.old.depth ≤ 1000 }
        ensures { OnOk result (standing self.new ≡ spec.step (standing self.old) role) }
    {
        match role {
            Role::Opens(close) => self.open(close)?,
            Role::Closes(mark) => self.close(mark),
            Role::Separates => self.separate(),
            Role::Other => self.count(),
        }
        Ok(())
    }
}
