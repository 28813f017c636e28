//! Rows, computed: what the definitions say is what the language manual or another implementation says.
ghost use Rattle.std.specs.Prelude.{[], ◌≡◌, List, ℕ};
ghost use Rattle.mo_types.specs.Graph.{Slot};
ghost use Rattle.mo_types.specs.declared.node.TypeId.{TypeId};
ghost use Rattle.typed_tree.specs.declared.expression.Function.{roll-Function};
ghost use Rattle.typed_tree.specs.declared.expression.TypedExpression.{TypedExpression};
ghost use Rattle.typed_tree.specs.ActionTypes.{Context};
ghost use Rattle.typed_tree.specs.Examples.{actor_pattern, answers_five, answers_text, counter, forgets, generic_types, local_method, on_strays, query_waits, uses_generic};
ghost use Rattle.typed_tree.specs.HasRows.{asked, wanted_inside};
ghost use Rattle.typed_tree.specs.PatternRows.{answers, first_cases, wanted, wanted_weights, weights};
ghost use Rattle.typed_tree.specs.PlacingRows.{orders, wanted_orders};
ghost use Rattle.typed_tree.specs.PatternTypes.{Stands};
ghost use Rattle.typed_tree.specs.Typing.{IsFunctionOf};
ghost use Rattle.typed_tree.specs.Wants.{Want};
ghost use Rattle.typed_tree.specs.WellTyped.{WellTyped};

/// Which case is the first that matches, and what its names stand for; what it costs to try patterns.
pub fn patterns_are_as_wanted()
    ensures cases { answers first_cases ≡ wanted first_cases }
    ensures weights { weights ≡ wanted_weights }
{}

/// Where functions stand in lists of declarations.
pub fn orders_are_as_wanted()
    ensures { orders ≡ wanted_orders }
{}

/// What is asked of the values inside a value of an option, a tuple, an array, an object with a `var` field, and a variant.
pub fn values_inside_are_as_wanted()
    ensures { asked ≡ wanted_inside }
{}

/// An actor whose query returns 5 as a Nat is well typed, and so is one with a stable variable and a method that adds 1 to it,
/// and one whose query calls a function with a type parameter. One is not well typed where a Nat is due and a text is returned, where a query waits, and where a public function is no
/// shared one.
pub fn small_actors_are_judged()
    ensures accepted { WellTyped answers_five }
    ensures counter { WellTyped counter }
    ensures generic { WellTyped uses_generic }
    ensures text { WellTyped answers_text → ⊥ }
    ensures waiting { (e : TypedExpression) → WellTyped (query_waits e) → ⊥ }
    ensures local { WellTyped local_method → ⊥ }
{}

/// `func (x : Any) : Nat { 5 }` is a function of no type that mentions a type parameter which is not in scope, and an actor is no literal of
/// a pattern.
pub fn small_functions_are_judged()
    ensures stray { (c : Context) → c.parameters ≡ [] → IsFunctionOf generic_types (roll-Function forgets) c on_strays → ⊥ }
    ensures pattern { (types : List Slot) → (vs : List ℕ) → (t : TypeId) → (u : TypeId) → (x : List ℕ) → (ns : List (Want TypeId)) → Stands types vs (actor_pattern u x) t ns → ⊥ }
{}
