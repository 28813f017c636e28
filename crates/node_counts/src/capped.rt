//! Counting up to one more than a program may have.
ghost use Rattle.std.specs.Prelude.{◌≡◌};
ghost use Rattle.node_counts.specs.Counting.{Counts, capped};

/// One more than the nodes that a program may have.
pub(crate) const MANY: u32 = 50001;

/// One node more.
pub(crate) fn one_more(counted: u32) -> u32
    ensures { Counts 1 counted result }
{
    if counted < MANY { counted + 1 } else { MANY }
}

/// What is counted, or 50,001 where that is more.
pub(crate) fn capped(counted: u32) -> u32
    ensures { result ≡ capped counted }
{
    if counted < MANY { counted } else { MANY }
}
