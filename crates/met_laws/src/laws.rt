//! Types that are met whether or not a node has them.
ghost use Rattle.std.specs.Prelude.{None};
ghost use Rattle.typing_rules.specs.Rows.{IsAnswer};
ghost use Rattle.met_laws.specs.Laws.{BasicsAreTypes, OwnTypesAreTypes, ParametersAreTypes, UnusedIsAType, unused};

/// `()`, Bool and Nat are types of each program that is typed.
pub fn basics_are_types()
    ensures { BasicsAreTypes }
{}

/// So is the type of an actor that has a name.
pub fn own_types_are_types()
    ensures { OwnTypesAreTypes }
{}

/// The type parameters of a function or class are types of the program.
pub fn type_parameters_are_types()
    ensures { ParametersAreTypes }
{}

/// So is one that no other type mentions.
pub fn unused_parameters_are_types()
    ensures typed { IsAnswer unused None }
    ensures met { UnusedIsAType }
{}
