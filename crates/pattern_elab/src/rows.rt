//! Rows, computed: cases and values whose answers are known.
ghost use Rattle.std.specs.Prelude.{◌≡◌};
ghost use Rattle.typed_tree.specs.PatternRows.{first_cases};
ghost use Rattle.pattern_elab.specs.Rows.{AllSuit, SomeSuits, targets, wanted_targets};

/// Patterns may stand on values of their types, and on no others; the first that matches is the one that is wanted.
pub fn cases_are_as_wanted()
    ensures suit { AllSuit }
    ensures no_others { SomeSuits → ⊥ }
    ensures targets { targets first_cases ≡ wanted_targets first_cases }
{}
