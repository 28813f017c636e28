//! Each function here does nothing, and its contract is a law.
ghost use Rattle.number_lines.specs.Laws.{ArithmeticIsOfTheTable, NegationIsOfTheTable, NumbersGoInline, OrderIsOfTheTable, SamenessIsOfTheTable, WrappingIsOfTheTable};

/// The routine of an operator at a kind keeps the line of its primitive.
pub fn arithmetic_is_of_the_table<World>()
    ensures { ArithmeticIsOfTheTable World }
{}

/// The routine of negation at a kind does.
pub fn negation_is_of_the_table<World>()
    ensures { NegationIsOfTheTable World }
{}

/// The routine of an operator that wraps does, at a kind with a width.
pub fn wrapping_is_of_the_table<World>()
    ensures { WrappingIsOfTheTable World }
{}

/// The routine of an order of numbers of a kind does.
pub fn order_is_of_the_table<World>()
    ensures { OrderIsOfTheTable World }
{}

/// The routine of sameness of numbers of a kind does.
pub fn sameness_is_of_the_table<World>()
    ensures { SamenessIsOfTheTable World }
{}

/// The code of each routine but that of a power may stand in other functions.
pub fn numbers_go_inline()
    ensures { NumbersGoInline }
{}
