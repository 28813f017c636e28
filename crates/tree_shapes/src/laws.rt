//! What is written out nests less than it has written nodes.
ghost use Rattle.tree_shapes.specs.Laws.{ExpressionsNest, ProgramsNest};

/// An expression nests less than it has written nodes. So does the body of each function in it with the tests of its parameters, and built-in
/// functions that only others make are not in it.
pub fn expressions_nest()
    ensures { ExpressionsNest }
{}

/// The declarations of a program nest no more than their nodes, also with a hook behind them. So do its methods and hooks, less than theirs.
pub fn programs_nest()
    ensures { ProgramsNest }
{}
