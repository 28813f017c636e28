//! Laws of coverage. Each function does nothing, and its contract is a theorem.
ghost use Rattle.std.specs.Prelude.{◌≡◌, Bool, List, true, ℕ};
ghost use Rattle.mo_types.specs.declared.node.Node.{Node};
ghost use Rattle.mo_types.specs.declared.node.TypeId.{TypeId};
ghost use Rattle.mo_types.specs.Graph.{Slot};
ghost use Rattle.mo_types.specs.Sub.{Each};
ghost use Rattle.typed_tree.specs.declared.pattern.TypedPattern.{TypedPattern};
ghost use Rattle.typed_tree.specs.PatternTypes.{Stands};
ghost use Rattle.typed_tree.specs.PatternView.{pattern};
ghost use Rattle.typed_tree.specs.Patterns.{Pat};
ghost use Rattle.typed_tree.specs.Types.{AreLawful};
ghost use Rattle.typed_tree.specs.Wants.{Want};
ghost use Rattle.pattern_elab.specs.declared.decision.Tests.{Tests};
ghost use Rattle.pattern_elab.specs.Cases.{IsMade, SuitEach, first_match};
ghost use Rattle.pattern_elab.specs.Deciding.{Leads};
ghost use Rattle.mo_values.specs.Shapes.{Shape};
ghost use Rattle.pattern_coverage.specs.Inhabited.{HasValues, IsClosed, IsSound, IsValue, by_parts};
ghost use Rattle.pattern_coverage.specs.Cover.{IsExact, Tells, coverage};
ghost use Rattle.pattern_coverage.specs.Followed.{value_head};
ghost use Rattle.pattern_coverage.specs.Suited.{IsNoParameter, IsOn};

/// The patterns are found to cover their type exactly where each value of it matches one of them. Else a shape is found that some value of
/// the type has, where no pattern matches any value of the type that has it. A type parameter has the values of its bound. What a function value is, is left open, if there is one.
pub fn coverage_is_exact<F>()
    ensures { F → (types : List Slot) (has : TypeId → Bool) (t : TypeId) (ps : List Pat) → AreLawful types → Tells (value_head types) has → Each (λ p. IsOn (value_head types) p t) ps → IsExact (value_head types) F t ps (coverage (value_head types) has ps t) }
{}

/// A pattern that stands on a type by the rules of typing is on it.
pub fn patterns_that_stand_are_on()
    ensures { (types : List Slot) → AreLawful types → (parameters : List ℕ) (p : TypedPattern) (t : TypeId) (names : List (Want TypeId)) → Stands types parameters p t names → IsOn (value_head types) (pattern p) t }
{}

/// No type is a type parameter where bounds are followed.
pub fn bounds_come_to_an_end()
    ensures { (types : List Slot) (t : TypeId) → AreLawful types → IsNoParameter (value_head types t) }
{}

/// A value of a type has what the patterns on the type look into. So the tests that are made of them lead on it to the first pattern that
/// matches, or to nothing where none does.
pub fn values_suit_their_patterns<F>()
    ensures suit { (head : TypeId → Node TypeId) (t : TypeId) (ps : List Pat) (v : Shape F) → Each (λ p. IsOn head p t) ps → IsValue head t v → SuitEach ps v }
    ensures chosen { (head : TypeId → Node TypeId) (t : TypeId) (ps : List Pat) (made : Tests) (v : Shape F) → IsMade ps made → Each (λ p. IsOn head p t) ps → IsValue head t v → Leads made.places made.tests v made.start (first_match 0 ps v) }
{}

/// A table of types that have values stays one where a type is added that has values by the types in the table; where there is none to
/// add, it has all types that have values.
pub fn closed_tables_tell_what_has_values()
    ensures rules { (types : List Slot) → AreLawful types → (has : TypeId → Bool) → IsSound (value_head types) has → (t : TypeId) → by_parts has (value_head types t) ≡ true → HasValues (value_head types) t }
    ensures closed { (head : TypeId → Node TypeId) (has : TypeId → Bool) → IsSound head has → IsClosed head has → Tells head has }
{}
