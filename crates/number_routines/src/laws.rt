//! Each function here does nothing, and its contract is a law.
ghost use Rattle.number_routines.specs.Laws.{ArithmeticKeepsItsLine, NegationKeepsItsLine, OrderKeepsItsLine, PowerKeepsItsLine, SamenessKeepsItsLine, WrappingKeepsItsLine};

/// A call of the routine of `+`, `-`, `*`, `/` or `%` at a kind, on the words of two of its values, gives the word of the exact
/// result where that is a value of the kind, and else ends the execution with the text of the trap, in 60 steps at most; it changes nothing.
pub fn arithmetic_keeps_its_line<World>()
    ensures { ArithmeticKeepsItsLine World }
{}

/// A call of the routine of `-` at a kind, on the word of one of its values, gives that of the number with the other sign, or ends
/// the execution with the text of an overflow, in 60 steps at most; it changes nothing.
pub fn negation_keeps_its_line<World>()
    ensures { NegationKeepsItsLine World }
{}

/// A call of the routine of `+%`, `-%` or `*%` at a kind with a width, on the words of two of its values, gives that of the value of the
/// kind that differs from the exact result by whole turns, in 60 steps at most; it changes nothing.
pub fn wrapping_keeps_its_line<World>()
    ensures { WrappingKeepsItsLine World }
{}

/// A call of the routine of `<`, `<=`, `>` or `>=` at a kind, on the words of two of its values, says whether they are in this order, in
/// 60 steps at most; it changes nothing.
pub fn order_keeps_its_line<World>()
    ensures { OrderKeepsItsLine World }
{}

/// A call of the routine of sameness, on the words of two values of a kind, says whether they are the same number, in 60 steps at most;
/// it changes nothing.
pub fn sameness_keeps_its_line<World>()
    ensures { SamenessKeepsItsLine World }
{}

/// A call of the routine of `**` at a kind, on the words of two of its values, gives the word of the power where that is a value of the
/// kind, and else ends the execution with the text of an overflow, as where the exponent is negative; in 3,800 steps at most, which is
/// less than the weight of `**` pays for. It changes nothing.
pub fn power_keeps_its_line<World>()
    ensures { PowerKeepsItsLine World }
{}
