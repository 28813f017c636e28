//! Laws of types in which types stand in the place of type parameters.
ghost use Rattle.std.specs.Prelude.{[], ◌++◌, ◌<◌, ◌≡◌, ◌≤◌, List, length, ℕ};
ghost use Rattle.mo_types.specs.declared.node.Node.{Node};
ghost use Rattle.mo_types.specs.declared.node.TypeId.{TypeId};
ghost use Rattle.mo_types.specs.Graph.{Slot, head_at};
ghost use Rattle.mo_types.specs.Sub.{IsSubtype, Sub};
ghost use Rattle.typed_tree.specs.Instances.{AreWithinBounds, IsInstance, MentionsOnly};
ghost use Rattle.typed_tree.specs.Shareable.{IsComparable, IsShareable};
ghost use Rattle.typed_tree.specs.Types.{AreLawful, IsLawfulNode};
ghost use Rattle.typed_tree.specs.Wants.{Equal};
ghost use Rattle.closed_types.specs.Closings.{Agree, AreClosed, AreKept, BoundsEnd, BoundsMention, Closing, IsNoVariable, IsWithin, OthersNone, Puts};
ghost use Rattle.closed_types.specs.Environments.{HasParameters, IsCall, IsEnvironment, IsInside, with_arguments};
ghost use Rattle.closed_types.specs.Expanded.{Environment, close_in, expanded, value_in};

/// Where there are no type parameters, subtyping is transitive at each depth.
pub fn depths_are_transitive<B>()
    ensures { (head : B → Node B) → ((b : B) → IsNoVariable (head b)) → (n : ℕ) (t u v : B) → Sub head n t u → Sub head n u v → Sub head n t v }
{}

/// A type below another stays so, whatever types within the bounds are put in the place of the type parameters.
pub fn closings_keep_subtyping<A, B>()
    ensures { (head : A → Node A) (other : B → Node B) → AreClosed other → BoundsEnd head → (c : Closing head other) → IsWithin head other c → (t u : A) → IsSubtype head t u → IsSubtype other (c.close t) (c.close u) }
{}

/// A type comes to equal ones where the same is put in the place of the type parameters that it mentions.
pub fn closings_go_by_what_is_mentioned<A, B>()
    ensures { (head : A → Node A) (other : B → Node B) → AreClosed other → (c d : Closing head other) (vs : List ℕ) → Agree head other c d vs → (t : A) → MentionsOnly head vs t → Equal other (c.close t) (d.close t) }
{}

/// A type with types put in comes, with what stands around a call, to what the type comes to with these types in the place of
/// their type parameters.
pub fn instances_are_closings<A, B>()
    ensures { (head : A → Node A) (other : B → Node B) → AreClosed other → BoundsEnd head → (c d : Closing head other) → IsWithin head other c → (vs : List ℕ) (ts : List A) (scope : List ℕ) → Puts head other c vs ts scope d → (t u : A) → MentionsOnly head scope t → IsInstance head vs ts t u → Equal other (c.close u) (d.close t) }
{}

/// And these types are within the bounds then, if they are so at the call, and if bounds mention no type parameters but
/// those in scope.
pub fn arguments_are_within_bounds<A, B>()
    ensures { (head : A → Node A) (other : B → Node B) → AreClosed other → BoundsEnd head → (c d : Closing head other) → IsWithin head other c → (vs : List ℕ) (ts : List A) (outer : List ℕ) → Puts head other c vs ts (vs ++ outer) d → AreKept head other vs ts outer → BoundsMention head other vs (vs ++ outer) → BoundsMention head other outer outer → OthersNone head other d (vs ++ outer) → length ts ≡ length vs → AreWithinBounds head vs ts → IsWithin head other d }
{}

/// In each environment the types of a program come to closed ones: a type of the program that is no type parameter and has
/// nothing put in is itself, and what is no type parameter has its own form, with its parts in the environment.
pub fn environments_close_types()
    ensures closing { (types : List Slot) (first : ℕ) → length types ≤ first → (e : Environment) → (c : Closing (head_at types) (expanded types first)) × (c.value ≡ value_in types first e) × (c.close ≡ close_in types first e) }
    ensures closed { (types : List Slot) (first : ℕ) → length types ≤ first → AreLawful types → AreClosed (expanded types first) }
    ensures itself { (types : List Slot) (first : ℕ) (t : TypeId) → t.index < first → IsNoVariable (head_at types t) → close_in types first [] t ≡ t }
{}

/// Nothing stands in the place of a type parameter at first. A call of a function with type parameters, of types within their
/// bounds, leads into an environment again; and an instance of a type is there, where the call is, equal to the type there,
/// where the body runs.
pub fn calls_enter_environments()
    ensures empty { (types : List Slot) (first : ℕ) → length types ≤ first → AreLawful types → IsEnvironment types first [] [] }
    ensures entered { (types : List Slot) (first : ℕ) → length types ≤ first → AreLawful types → (scope vs : List ℕ) (ts : List TypeId) (e at : Environment) → IsEnvironment types first scope e → IsInside types first scope e at → HasParameters types first scope vs → IsCall types first scope vs ts at → IsEnvironment types first (vs ++ scope) (with_arguments types first at vs ts e) }
    ensures instances { (types : List Slot) (first : ℕ) → length types ≤ first → AreLawful types → (scope vs : List ℕ) (ts : List TypeId) (e at : Environment) → IsEnvironment types first scope e → IsInside types first scope e at → HasParameters types first scope vs → IsCall types first scope vs ts at → (t u : TypeId) → MentionsOnly (head_at types) (vs ++ scope) t → IsInstance (head_at types) vs ts t u → Equal (expanded types first) (close_in types first at u) (close_in types first (with_arguments types first at vs ts e) t) }
{}

/// In an environment a type below another stays so, and what a type mentions is all that it comes to further inside.
pub fn environments_keep_subtyping()
    ensures below { (types : List Slot) (first : ℕ) → length types ≤ first → AreLawful types → (scope : List ℕ) (e : Environment) → IsEnvironment types first scope e → (t u : TypeId) → IsSubtype (head_at types) t u → IsSubtype (expanded types first) (close_in types first e t) (close_in types first e u) }
    ensures inside { (types : List Slot) (first : ℕ) → length types ≤ first → AreLawful types → (scope : List ℕ) (e at : Environment) → IsInside types first scope e at → (t : TypeId) → MentionsOnly (head_at types) scope t → Equal (expanded types first) (close_in types first e t) (close_in types first at t) }
{}

/// Types whose values go into messages, or are compared, mention no type parameters.
pub fn shareable_types_are_constant<A>()
    ensures shareable { (head : A → Node A) → ((t : A) → IsLawfulNode head (head t)) → (t : A) → IsShareable head t → MentionsOnly head [] t }
    ensures comparable { (head : A → Node A) (t : A) → IsComparable head t → IsShareable head t }
{}
