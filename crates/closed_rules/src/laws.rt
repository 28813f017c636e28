//! Laws of the rules of typing where types stand in the place of type parameters.
ghost use Rattle.std.specs.Prelude.{[], ◌<◌, ◌≡◌, ◌≤◌, List, length, ℕ};
ghost use Rattle.mo_types.specs.declared.node.Node.{Node};
ghost use Rattle.mo_types.specs.declared.node.TypeId.{TypeId};
ghost use Rattle.mo_types.specs.Graph.{Slot, head_at};
ghost use Rattle.mo_subtype.specs.Renamed.{on_node};
ghost use Rattle.mo_values.specs.declared.operation.Operation.{Operation};
ghost use Rattle.mo_values.specs.Equality.{equal};
ghost use Rattle.mo_values.specs.Shapes.{Shape};
ghost use Rattle.typed_tree.specs.declared.action.Action.{Action};
ghost use Rattle.typed_tree.specs.declared.action.Action.TheVariants as action;
ghost use Rattle.typed_tree.specs.declared.action.Member.{Member};
ghost use Rattle.typed_tree.specs.ActionTypes.{ActionTyped, Context};
ghost use Rattle.typed_tree.specs.MemberTypes.{MemberTyped};
ghost use Rattle.typed_tree.specs.OperationTypes.{OperationTyped};
ghost use Rattle.typed_tree.specs.Opening.{Code};
ghost use Rattle.typed_tree.specs.Shareable.{IsComparable, IsShareable};
ghost use Rattle.typed_tree.specs.Types.{AreLawful};
ghost use Rattle.typed_tree.specs.Wants.{Want};
ghost use Rattle.closed_types.specs.Closings.{Closing};
ghost use Rattle.closed_types.specs.Expanded.{close_in, expanded};
ghost use Rattle.closed_rules.specs.ClosedWants.{ActsOnNoType, NamesNoType, close_context, close_want, close_wants};

/// A built-in function has the type that its type comes to, and holds what its values come to.
pub fn members_are_closed<A, B>()
    ensures { (head : A → Node A) (other : B → Node B) (c : Closing head other) (m : Member) (ws : List (Want A)) (n : Node A) → MemberTyped head m ws n → MemberTyped other m (close_wants c.close ws) (on_node c.close n) }
{}

/// An operation that names no type takes and gives values of the types that those of its operands come to.
pub fn operations_are_closed()
    ensures { (head : TypeId → Node TypeId) (other : TypeId → Node TypeId) (c : Closing head other) (o : Operation) (ws : List (Want TypeId)) (w : Want TypeId) → NamesNoType o → OperationTyped head o ws w → OperationTyped other o (close_wants c.close ws) (close_want c.close w) }
{}

/// And so does an action that names no type, in a context whose names and labels come to such.
pub fn actions_are_closed()
    ensures { (head : TypeId → Node TypeId) (other : TypeId → Node TypeId) (c : Closing head other) (x : Context) (a : Action) (ws : List (Want TypeId)) (w : Want TypeId) → ActsOnNoType a → ActionTyped head x a ws w → ActionTyped other (close_context c.close x) a (close_wants c.close ws) (close_want c.close w) }
{}

/// Where nothing stands in the place of type parameters, a call of a shared function is typed as it was, with the types that
/// it names.
pub fn calls_of_shared_functions_stay()
    ensures { (types : List Slot) (first : ℕ) → length types ≤ first → AreLawful types → (x : Context) (ps rs : List TypeId) (ws : List (Want TypeId)) (w : Want TypeId) → ActionTyped (head_at types) x (action.Send ps rs) ws w → ActionTyped (expanded types first) (close_context (close_in types first []) x) (action.Send ps rs) (close_wants (close_in types first []) ws) (close_want (close_in types first []) w) }
{}

/// A type of a program whose values go into messages has the same head among the closed types.
pub fn shareable_types_stay()
    ensures { (types : List Slot) (first : ℕ) → length types ≤ first → AreLawful types → (t : TypeId) → IsShareable (head_at types) t → t.index < first → expanded types first t ≡ head_at types t }
{}

/// Values are equal at a type of a program where they are so at what the type comes to where nothing is put in, also if it is
/// no type of the graph; and values are compared there.
pub fn equality_stays()
    ensures compared { (types : List Slot) (first : ℕ) → length types ≤ first → AreLawful types → (t : TypeId) → IsComparable (head_at types) t → IsComparable (expanded types first) (close_in types first [] t) }
    ensures same { (types : List Slot) (first : ℕ) → length types ≤ first → AreLawful types → (t : TypeId) → IsComparable (head_at types) t → (v w : Shape Code) → equal (head_at types) t v w ≡ equal (expanded types first) (close_in types first [] t) v w }
{}
