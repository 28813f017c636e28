//! Laws of the language: values and their shapes, substitution, what trees stand for, and patterns, which see no function.
ghost use Rattle.std.specs.Prelude.{◌+◌, ◌≡◌, Bool, List, Some, length, ℕ};
ghost use Rattle.mo_types.specs.Heads.{map_option};
ghost use Rattle.mo_types.specs.declared.node.Node.{Node};
ghost use Rattle.mo_types.specs.declared.node.TypeId.{TypeId};
ghost use Rattle.mo_values.specs.declared.operation.Operation.{Operation};
ghost use Rattle.mo_values.specs.Recoding.{recode, recodes};
ghost use Rattle.mo_values.specs.Shapes.{Shape};
ghost use Rattle.typed_tree.specs.Language.{Exp, Value};
ghost use Rattle.typed_tree.specs.Opening.{Code, shape_of, value_of};
ghost use Rattle.typed_tree.specs.Patterns.{Pat, Pats, matches, matches_all, names, names_all};
ghost use Rattle.typed_tree.specs.PatternWeights.{pattern_weight};
ghost use Rattle.typed_tree.specs.ProgramView.{program};
ghost use Rattle.typed_tree.specs.Scoped.{Scoped};
ghost use Rattle.typed_tree.specs.Soundness.{IsSound, decided};
ghost use Rattle.typed_tree.specs.Substitution.{Slots, merge, put};
ghost use Rattle.typed_tree.specs.TypingLaws.{CasesGoByRules, ExpressionsGoByRules, FieldsGoByRules, FormsGoByRules, FunctionsGoByRules, PatternFormsGoByRules, PatternsGoByRules, StepsGoByRules};
ghost use Rattle.typed_tree.specs.ViewLaws.{DeclarationViews, FormViews, PatternViews};
ghost use Rattle.typed_tree.specs.WellTyped.{WellTyped};
ghost use Rattle.typed_tree.specs.declared.program.Program.{Program};

/// A value is the same as its shape, and a shape as its value.
pub fn values_and_shapes_are_the_same()
    ensures value { (v : Value) → value_of (shape_of v) ≡ v }
    ensures shape { (s : Shape Code) → shape_of (value_of s) ≡ s }
{}

/// Values that are put in the place of names in two turns can be put at once.
pub fn substitutions_compose()
    ensures { (s : Slots) (t : Slots) (e : Exp) → put s (put t e) ≡ put (merge s t) e }
{}

/// An expression whose names are bound inside it is left as it is where values are put in the place of names.
pub fn closed_expressions_stay()
    ensures { (s : Slots) (e : Exp) → Scoped 0 e → put s e ≡ e }
{}

/// In the body of a well-typed program each name is bound: there, or by the actor, its methods or what was kept of its stable
/// variables.
pub fn names_are_bound()
    ensures { (p : Program) → WellTyped p → Scoped (1 + (length p.methods + length p.stable)) (program p).body }
{}

/// Each form of tree stands for the expression of its parts' expressions.
pub fn trees_stand_for_expressions()
    ensures patterns { PatternViews }
    ensures forms { FormViews }
    ensures declarations { DeclarationViews }
{}

/// A pattern that matches gives as many values as it has names.
pub fn names_have_values<F>()
    ensures one { (p : Pat) (v : Shape F) (vs : List (Shape F)) → matches p v ≡ Some vs → length vs ≡ names p }
    ensures all { (ps : Pats) (us : List (Shape F)) (vs : List (Shape F)) → matches_all ps us ≡ Some vs → length vs ≡ names_all ps }
{}

/// Where the functions in a value are others, it matches the same patterns, with the same values but for these functions.
pub fn patterns_see_no_function<F, G>()
    ensures one { (code : F → G) (p : Pat) (v : Shape F) → matches p (recode code v) ≡ map_option (recodes code) (matches p v) }
    ensures all { (code : F → G) (ps : Pats) (vs : List (Shape F)) → matches_all ps (recodes code vs) ≡ map_option (recodes code) (matches_all ps vs) }
{}

/// And it costs the same to try them.
pub fn weights_see_no_function<F, G>()
    ensures { (code : F → G) (p : Pat) (v : Shape F) → pattern_weight p (recode code v) ≡ pattern_weight p v }
{}

/// A tree is typed exactly where the rule of its form holds of its parts.
pub fn typing_goes_by_the_rules()
    ensures forms { FormsGoByRules }
    ensures steps { StepsGoByRules }
    ensures cases { CasesGoByRules }
    ensures functions { FunctionsGoByRules }
    ensures expressions { ExpressionsGoByRules }
    ensures pattern_forms { PatternFormsGoByRules }
    ensures fields { FieldsGoByRules }
    ensures patterns { PatternsGoByRules }
{}

/// Each operation of the table, on operands of the types that it takes, gives a value of the type that it gives, or traps; it
/// is never without an answer.
pub fn operations_keep_types<F>()
    ensures { (head : TypeId → Node TypeId) (functions : F → TypeId → Bool) (answers : ℕ → TypeId → Bool) (parameters : ℕ → Shape F → Bool) (kinds : List TypeId) (o : Operation) → IsSound head (decided functions answers parameters) kinds o }
{}
