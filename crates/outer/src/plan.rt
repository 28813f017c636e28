//! Which calls of an object in memory are to fail.
ghost use Rattle.std.specs.Prelude.{◌≡◌, ◌↔◌, IsTrue, Contains};
ghost use Rattle.outer.specs.Causes.{next_count};

use mo_num::Sequence;

/// The numbers, from 0, of the calls that are to fail. Their order and repetitions mean nothing.
pub type Places = Sequence<u64>;

/// The calls that are to fail, and how many were made.
#[derive(Drop)]
pub struct Plan {
    failing: Places,
    calls: u64,
}

impl Plan {
    /// No call was made yet.
    pub fn new(failing: Places) -> Self
        ensures failing { result.failing ≡ failing }
        ensures calls { result.calls ≡ 0 }
    {
        Plan { failing, calls: 0 }
    }

    /// Counts a call, and says whether it is to fail.
    pub fn next_fails(&mut self) -> bool
        ensures fails { IsTrue result ↔ Contains self.old.failing self.old.calls }
        ensures calls { self.new.calls ≡ next_count self.old.calls }
        ensures failing { self.new.failing ≡ self.old.failing }
    {
        let fails = self.failing.as_slice().contains(&self.calls);
        self.calls = self.calls.saturating_add(1);
        fails
    }
}
