//! Rows, computed: programs of each form that are typed, and for each condition programs in which it is false, at the wanted
//! place, as the language manual or another implementation says.
ghost use Rattle.std.specs.Prelude.{◌<◌, Err, ℕ};
ghost use Rattle.typing_rules.specs.declared.condition.Condition.TheVariants as condition;
ghost use Rattle.typing_rules.specs.AbstractSyntax.{Program};
ghost use Rattle.typing_rules.specs.Answers.{fault};
ghost use Rattle.typing_rules.specs.LimitRows.{units, with_options};
ghost use Rattle.typing_rules.specs.NodeRows.{AreMade, node_types};
ghost use Rattle.typing_rules.specs.Nodes.{nodes};
ghost use Rattle.typing_rules.specs.Programs.{Checks};
ghost use Rattle.typing_rules.specs.Rows.{AreAnswered, actor};
ghost use Rattle.typing_rules.specs.MismatchRows.{mismatch_first, mismatch_second};
ghost use Rattle.typing_rules.specs.ShapeRows.{shape_first, shape_second, shape_third};
ghost use Rattle.typing_rules.specs.WrittenTypeRows.{written_type_first, written_type_second};
ghost use Rattle.typing_rules.specs.PlaceRows.{place_first, place_second};
ghost use Rattle.typing_rules.specs.PatternRows.{pattern};
ghost use Rattle.typing_rules.specs.TypedLiterals.{typed_literals};
ghost use Rattle.typing_rules.specs.TypedControl.{typed_control};
ghost use Rattle.typing_rules.specs.TypedFunctions.{typed_functions};
ghost use Rattle.typing_rules.specs.TypedPatterns.{typed_patterns};
ghost use Rattle.typing_rules.specs.TypedActors.{typed_actors};

/// A type that is not below the one that is wanted is refused at its node, and so is a literal or a part that is not of it.
pub fn types_fit()
    ensures first { AreAnswered mismatch_first }
    ensures second { AreAnswered mismatch_second }
{}

/// A value has the form that a rule asks: a function, an object, an array, a tuple, an option, a number of its type.
pub fn values_have_forms()
    ensures first { AreAnswered shape_first }
    ensures second { AreAnswered shape_second }
    ensures third { AreAnswered shape_third }
{}

/// Types are written where they have to be, with as many arguments as they have parameters, and definitions come to a type.
pub fn written_types_are_right()
    ensures first { AreAnswered written_type_first }
    ensures second { AreAnswered written_type_second }
{}

/// `await`, calls of shared functions, labels and `!` stand where they may.
pub fn places_are_right()
    ensures first { AreAnswered place_first }
    ensures second { AreAnswered place_second }
{}

/// A pattern stands on a type that has it.
pub fn patterns_stand()
    ensures { AreAnswered pattern }
{}

/// Programs of each form are typed.
pub fn programs_are_typed()
    ensures literals { AreAnswered typed_literals }
    ensures control { AreAnswered typed_control }
    ensures functions { AreAnswered typed_functions }
    ensures patterns { AreAnswered typed_patterns }
    ensures actors { AreAnswered typed_actors }
{}

/// The types of the nodes in sums, differences and comparisons of literals and names.
pub fn nodes_have_types()
    ensures { AreMade node_types }
{}

/// More than 50,000 nodes are refused before all else, as in a list of more than 25,000 expressions `()`.
pub fn nodes_are_limited()
    ensures any { (program : Program ℕ) → 50000 < nodes program → Checks program (Err (fault condition.TooManyNodes 0)) }
    ensures units { (n : ℕ) → 25000 < n → Checks (actor (units n 2)) (Err (fault condition.TooManyNodes 0)) }
{}

/// So are more than 4,096 types, as in a type of 4,096 options, one in another.
pub fn types_are_limited()
    ensures { Checks (with_options 4096) (Err (fault condition.TooManyTypes 0)) }
{}
