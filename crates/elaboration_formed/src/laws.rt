//! Laws of what elaboration makes.
ghost use Rattle.elaboration_formed.specs.Formed.{BodiesAreFormed, ExpressionsAreFormed, GroupsAreFormed, InnerGroupsAreFormed, StartsFit};
ghost use Rattle.elaboration_formed.specs.Programs.{FunctionsAreShaped, ProgramsAreShaped, TreesAreShaped};

/// Code of an expression, in which each action has its operands, is formed in a scope whose places and exits are there: its names and labels are there,
/// its groups stand in the table and see so many names, and its actions have as many operands as they take. So are the bodies of a group.
pub fn code_is_formed()
    ensures expressions { ExpressionsAreFormed }
    ensures bodies { BodiesAreFormed }
{}

/// So are the groups that an expression makes, those of built-in functions among them, and that the bodies of functions make. In the scope of a start
/// all places are there.
pub fn groups_are_formed()
    ensures groups { GroupsAreFormed }
    ensures inner { InnerGroupsAreFormed }
    ensures starts { StartsFit }
{}

/// In a typed tree, in a function, and in the body of a well-typed program each action has its operands.
pub fn typed_trees_are_shaped()
    ensures trees { TreesAreShaped }
    ensures functions { FunctionsAreShaped }
    ensures programs { ProgramsAreShaped }
{}
