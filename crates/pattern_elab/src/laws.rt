//! Laws of decision tests. Each function does nothing, and its contract is a theorem.
ghost use Rattle.std.specs.Prelude.{List};
ghost use Rattle.typed_tree.specs.Patterns.{Pat};
ghost use Rattle.pattern_elab.specs.declared.decision.Tests.{Tests};
ghost use Rattle.pattern_elab.specs.Cases.{Chooses, IsMade};

/// The tests that `cases` makes lead on any value that the patterns may stand on to the first pattern that matches it, or to
/// nothing where none does, whatever a function value is.
pub fn tests_choose_the_first_match<F>()
    ensures { (ps : List Pat) (made : Tests) → IsMade ps made → Chooses F ps made }
{}
