//! Laws of typed trees that run.
ghost use Rattle.std.specs.Prelude.{List, Option, length, ℕ, ◌≤◌, None};
ghost use Rattle.mo_num.specs.declared.kind.Kind.{Kind};
ghost use Rattle.mo_num.specs.declared.operator.Operator.{Operator};
ghost use Rattle.mo_types.specs.declared.node.TypeId.{TypeId};
ghost use Rattle.mo_types.specs.Graph.{Slot, head_at};
ghost use Rattle.mo_values.specs.declared.operation.Operation.TheVariants as op;
ghost use Rattle.typed_tree.specs.declared.action.Action.TheVariants as action;
ghost use Rattle.typed_tree.specs.ActionTypes.{Context};
ghost use Rattle.typed_tree.specs.Basics.{HasBasics};
ghost use Rattle.typed_tree.specs.Language.{Do, Exp, Value};
ghost use Rattle.typed_tree.specs.PatternTypes.{Stands};
ghost use Rattle.typed_tree.specs.PatternView.{pattern};
ghost use Rattle.typed_tree.specs.Types.{AreLawful};
ghost use Rattle.typed_tree.specs.Typing as tree;
ghost use Rattle.typed_tree.specs.View.{expression};
ghost use Rattle.typed_tree.specs.Wants.{Want};
ghost use Rattle.typed_tree.specs.declared.expression.TypedExpression.{TypedExpression};
ghost use Rattle.typed_tree.specs.declared.pattern.TypedPattern.{TypedPattern};
ghost use Rattle.mo_meaning.specs.Acts.{Given, Store};
ghost use Rattle.mo_meaning.specs.Places.{operands};
ghost use Rattle.mo_meaning.specs.Reduce.{reduce};
ghost use Rattle.closed_types.specs.Environments.{IsEnvironment};
ghost use Rattle.closed_types.specs.Expanded.{Environment, close_in, expanded};
ghost use Rattle.closed_rules.specs.ClosedWants.{close_want};
ghost use Rattle.mo_soundness.specs.Keeps.{IsNoValue, Keeps, Suits, closed};
ghost use Rattle.mo_soundness.specs.Lawful.{IsLawful};
ghost use Rattle.mo_soundness.specs.Meets.{MeetsComparable, MeetsNumbers};
ghost use Rattle.mo_soundness.specs.Running.{AnswerTypes, Around, StoreTyped, Typed};
ghost use Rattle.mo_soundness.specs.RunningPatterns.{PatternTyped};
ghost use Rattle.closed_trees.specs.Seen.{Fine, SeesAll, around_in};
ghost use Rattle.closed_trees.specs.Worlds.{closed_world};

/// The types of a well-typed program in environments are as the laws of expressions that run ask.
pub fn closed_types_are_lawful()
    ensures { (types : List Slot) → AreLawful types → HasBasics types → (first : ℕ) → length types ≤ first → IsLawful (expanded types first) }
{}

/// A pattern that stands on a type, in the scope of some type parameters, is typed in each of their environments as one that
/// meets values of what the type comes to there; its names stand for what theirs come to.
pub fn patterns_are_typed()
    ensures { (types : List Slot) → AreLawful types → HasBasics types → (first : ℕ) → length types ≤ first → (vs : List ℕ) (e : Environment) → IsEnvironment types first vs e → (p : TypedPattern) (t : TypeId) (ns : List (Want TypeId)) → Stands types vs p t ns → (ms : List (Want TypeId)) × SeesAll types first vs e ns ms × PatternTyped (expanded types first) (pattern p) (close_in types first e t) ms }
{}

/// The expression of a typed tree gives, in each environment of the type parameters in scope, what the type of the tree comes
/// to there. A function with type parameters is typed for each choice of types within their bounds.
pub fn trees_are_typed()
    ensures { (types : List Slot) → AreLawful types → HasBasics types → (first : ℕ) → length types ≤ first → (answers : AnswerTypes) (kinds : List TypeId) (x : TypedExpression) (c : Context) (e : Environment) (ms : List (Want TypeId)) (w : Want TypeId) → Fine types first answers c e ms → tree.Typed types x c w → Typed (closed_world types first) answers kinds (around_in types first e ms c) (expression x) (close_want (close_in types first e) w) }
{}

/// And such an expression, closed and over a store that is typed so, is never stuck: its reduction, which looks at the types of
/// the program alone, keeps what it gives and the types of the store.
pub fn reductions_keep_closed_types()
    ensures { (types : List Slot) → AreLawful types → HasBasics types → (first : ℕ) → length types ≤ first → (answers : AnswerTypes) (kinds : List TypeId) (labels : List TypeId) (w : Want TypeId) (given : Option Given) (store : Store) (e : Exp) → IsNoValue e → StoreTyped (closed_world types first) answers kinds store kinds → Typed (closed_world types first) answers kinds (closed labels) e w → Suits (closed_world types first) answers kinds given (reduce (head_at types) None store e) → Keeps (closed_world types first) answers kinds labels w (reduce (head_at types) given store e) }
{}

/// In what runs of a well-typed program arithmetic meets two numbers in the range of its kind, and equality two values of one
/// type that may be compared, at which it is that of the type which the program names.
pub fn closed_operands_are_as_wanted()
    ensures numbers { (types : List Slot) (first : ℕ) (answers : AnswerTypes) (kinds : List TypeId) (c : Around) (o : Operator) (k : Kind) (vs : List Value) (w : Want TypeId) → Typed (closed_world types first) answers kinds c (Do (action.Operate (op.Arithmetic o k)) (operands vs)) w → MeetsNumbers k vs }
    ensures compared { (types : List Slot) (first : ℕ) (answers : AnswerTypes) (kinds : List TypeId) (c : Around) (t : TypeId) (vs : List Value) (w : Want TypeId) → Typed (closed_world types first) answers kinds c (Do (action.Operate (op.Equal t)) (operands vs)) w → MeetsComparable (closed_world types first) answers kinds t vs }
{}
