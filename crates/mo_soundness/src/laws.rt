//! Laws of typed expressions that run.
ghost use Rattle.std.specs.Prelude.{◌∷◌, ◌≡◌, ◌≢◌, List, [], None, Option, Some, ℕ};
ghost use Rattle.mo_num.specs.declared.kind.Kind.{Kind};
ghost use Rattle.mo_num.specs.declared.kind.Kind.TheVariants as kind;
ghost use Rattle.mo_num.specs.declared.operator.Operator.{Operator};
ghost use Rattle.mo_types.specs.declared.node.Node.{Node};
ghost use Rattle.mo_types.specs.declared.node.TypeId.{TypeId};
ghost use Rattle.mo_types.specs.Graph.{Slot, head_at};
ghost use Rattle.mo_types.specs.Sub.{IsSubtype};
ghost use Rattle.mo_values.specs.declared.operation.Operation.TheVariants as op;
ghost use Rattle.typed_tree.specs.declared.action.Action.TheVariants as action;
ghost use Rattle.typed_tree.specs.Has.{Has};
ghost use Rattle.typed_tree.specs.Instances.{AreWithinBounds};
ghost use Rattle.typed_tree.specs.Language.{Do, Exp, Val, Value};
ghost use Rattle.typed_tree.specs.MemberTypes.{IsNumber, IsUnit};
ghost use Rattle.typed_tree.specs.Opening.{shape_of};
ghost use Rattle.typed_tree.specs.OperationTypes.{IsBool};
ghost use Rattle.typed_tree.specs.Types.{AreLawful};
ghost use Rattle.typed_tree.specs.Wants.{Of, Serves, Want};
ghost use Rattle.mo_meaning.specs.Acts.{Awaits, Given, Leaves, Store, Stuck};
ghost use Rattle.mo_meaning.specs.Members.{number};
ghost use Rattle.mo_meaning.specs.Places.{operands};
ghost use Rattle.mo_meaning.specs.Reduce.{reduce};
ghost use Rattle.mo_soundness.specs.Answered.{IsAnswered, IsAsking};
ghost use Rattle.mo_soundness.specs.Circle.{at, circle, circle_head};
ghost use Rattle.mo_soundness.specs.Examples.{basic_head, nat, no_calls, reached_twice, sum};
ghost use Rattle.mo_soundness.specs.Keeps.{IsLonger, IsNoValue, Keeps, Suits, closed};
ghost use Rattle.mo_soundness.specs.Lawful.{IsLawful};
ghost use Rattle.mo_soundness.specs.Meets.{MeetsComparable, MeetsNumbers};
ghost use Rattle.mo_soundness.specs.Reached.{Reaches};
ghost use Rattle.mo_soundness.specs.Running.{AnswerTypes, Around, HasValue, StoreTyped, Typed, known};
ghost use Rattle.mo_soundness.specs.Worlds.{plain_world};

/// What fits here is a value of its type as the operations see it, where of a function is known that its group is typed, and
/// of a future that the answer to its call has a type below.
pub fn values_have_their_types()
    ensures { (head : TypeId → Node TypeId) (answers : AnswerTypes) (kinds : List TypeId) (v : Value) (w : Want TypeId) → HasValue (plain_world head) answers kinds w v → Has head (known (plain_world head) answers kinds) kinds w (shape_of v) }
{}

/// What is typed stays so where less is asked: a value of a type has each type above it, and an expression gives it.
pub fn types_rise()
    ensures values { (head : TypeId → Node TypeId) → IsLawful head → (answers : AnswerTypes) (kinds : List TypeId) (v : Value) (w : Want TypeId) (u : Want TypeId) → HasValue (plain_world head) answers kinds w v → Serves head w u → HasValue (plain_world head) answers kinds u v }
    ensures expressions { (head : TypeId → Node TypeId) → IsLawful head → (answers : AnswerTypes) (kinds : List TypeId) (c : Around) (e : Exp) (w : Want TypeId) (u : Want TypeId) → Typed (plain_world head) answers kinds c e w → Serves head w u → Typed (plain_world head) answers kinds c e u }
{}

/// A closed typed expression that is no value is never stuck, over a store that is typed. What it is reduced to gives what it
/// gave, and the store stays typed: the cells that there were keep their types. A jump brings a value of its label's type, a
/// call is one of a shared function, with arguments of its types, and what is thrown is an error. So it is too where a call or
/// an `await` is given what it waits for, if that fits.
pub fn reductions_keep_types()
    ensures { (head : TypeId → Node TypeId) → IsLawful head → (answers : AnswerTypes) (kinds : List TypeId) (labels : List TypeId) (w : Want TypeId) (given : Option Given) (store : Store) (e : Exp) → IsNoValue e → StoreTyped (plain_world head) answers kinds store kinds → Typed (plain_world head) answers kinds (closed labels) e w → Suits (plain_world head) answers kinds given (reduce head None store e) → Keeps (plain_world head) answers kinds labels w (reduce head given store e) }
{}

/// The types of a well-typed program are as the laws here ask, if Bool, () and Nat are among them.
pub fn graphs_are_lawful()
    ensures { (types : List Slot) → AreLawful types → (flag : TypeId) (unit : TypeId) (natural : TypeId) → IsBool (head_at types) flag → IsUnit (head_at types) unit → IsNumber (head_at types) kind.Nat natural → IsLawful (head_at types) }
{}

/// So a closed typed expression outside all labels is a value, or its reduction is neither stuck nor a jump.
pub fn typed_expressions_go_on()
    ensures { (head : TypeId → Node TypeId) → IsLawful head → (answers : AnswerTypes) (kinds : List TypeId) (w : Want TypeId) (store : Store) (e : Exp) → IsNoValue e → StoreTyped (plain_world head) answers kinds store kinds → Typed (plain_world head) answers kinds (closed []) e w → (reduce head None store e ≢ Stuck) × ((label : ℕ) (v : Value) → reduce head None store e ≢ Leaves label v) }
{}

/// And after any number of reductions that go on by themselves it is typed still, over a store of at least as many cells. So what
/// it ends with is a value of its type.
pub fn what_is_reached_is_typed()
    ensures { (head : TypeId → Node TypeId) → IsLawful head → (answers : AnswerTypes) (kinds : List TypeId) (w : Want TypeId) (store : Store) (last : Store) (e : Exp) (g : Exp) → StoreTyped (plain_world head) answers kinds store kinds → Typed (plain_world head) answers kinds (closed []) e w → Reaches head store e last g → (more : List TypeId) × IsLonger kinds more × StoreTyped (plain_world head) answers more last more × Typed (plain_world head) answers more (closed []) g w }
{}

/// Where a reduction of any expression asks for a call's or an `await`'s part, then with it, whatever it is, the expression goes
/// on, throws or traps.
pub fn what_asks_is_answered()
    ensures { (head : TypeId → Node TypeId) (given : Given) (store : Store) (e : Exp) → IsAsking (reduce head None store e) → IsAnswered (reduce head (Some given) store e) }
{}

/// An expression that stands at an `await` does so over each store, with the same call and the same nodes.
pub fn what_waits_waits_over_each_store()
    ensures { (head : TypeId → Node TypeId) (store : Store) (other : Store) (e : Exp) (nodes : ℕ) (call : ℕ) → reduce head None store e ≡ Awaits nodes call → reduce head None other e ≡ Awaits nodes call }
{}

/// `let x = 1; x + 1` is typed over a graph of Bool, () and Nat, and its second reduction comes to 2.
pub fn small_expressions_are_typed()
    ensures lawful { IsLawful basic_head }
    ensures typed { Typed (plain_world basic_head) no_calls [] (closed []) sum (Of nat) }
    ensures reduced { reached_twice ≡ Some (Val (number 2)) }
{}

/// Where the bounds of type parameters go in a circle, as in `<A <: B, B <: A>`, A is below Text, and yet Nat is within the
/// bounds of both: a generic function could use a number as a text. So the types of a program have bounds that end.
pub fn bounds_have_to_end()
    ensures below { IsSubtype circle_head (at 0) (at 3) }
    ensures within { AreWithinBounds circle_head (0 ∷ 1 ∷ []) (at 2 ∷ at 2 ∷ []) }
    ensures refused { AreLawful circle → ⊥ }
{}

/// In a typed expression arithmetic meets two numbers in the range of its kind, and equality two values of one type that may be
/// compared, which is a shareable one.
pub fn operands_are_as_wanted()
    ensures numbers { (head : TypeId → Node TypeId) (answers : AnswerTypes) (kinds : List TypeId) (c : Around) (o : Operator) (k : Kind) (vs : List Value) (w : Want TypeId) → Typed (plain_world head) answers kinds c (Do (action.Operate (op.Arithmetic o k)) (operands vs)) w → MeetsNumbers k vs }
    ensures compared { (head : TypeId → Node TypeId) (answers : AnswerTypes) (kinds : List TypeId) (c : Around) (t : TypeId) (vs : List Value) (w : Want TypeId) → Typed (plain_world head) answers kinds c (Do (action.Operate (op.Equal t)) (operands vs)) w → MeetsComparable (plain_world head) answers kinds t vs }
{}
