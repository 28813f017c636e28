//! Subtyping is an order.
ghost use Rattle.std.specs.Prelude.{◌≡◌, ◌≢◌, ◌≤◌, ℕ, Some};
ghost use Rattle.mo_types.specs.declared.node.Node.{Node};
ghost use Rattle.mo_types.specs.declared.node.Node.TheVariants as node;
ghost use Rattle.mo_types.specs.Heads.{variable_of};
ghost use Rattle.mo_types.specs.Sub.{IsSubtype, Sub};
ghost use Rattle.subtype_laws.specs.Bounds.{OneBound, SameBound};
ghost use Rattle.subtype_laws.specs.Equal.{AreTold};
ghost use Rattle.subtype_laws.specs.Labels.{OwnLabels};
ghost use Rattle.subtype_laws.specs.Reached.{Reached};

/// What holds to a depth holds to each lesser one.
pub fn depths_are_nested<A>()
    ensures { (head : A → Node A) (m n : ℕ) (t u : A) → m ≤ n → Sub head n t u → Sub head m t u }
{}

/// A type is below itself where each label of the types that it reaches is found at its own field.
pub fn subtyping_is_reflexive<A>()
    ensures { (head : A → Node A) (t : A) → ((u : A) → Reached head t u → OwnLabels (head u)) → IsSubtype head t t }
{}

/// A type below another is below what that one is below, where type parameters of one number have equal bounds.
pub fn subtyping_is_transitive<A>()
    ensures { (head : A → Node A) → OneBound head → (t u v : A) → IsSubtype head t u → IsSubtype head u v → IsSubtype head t v }
{}

/// And this is needed: where subtyping is reflexive and transitive, the bound of a type parameter is below each bound of the
/// same number, but for one that is a type parameter of that number itself.
pub fn transitivity_needs_equal_bounds<A>()
    ensures { (head : A → Node A) → ((t : A) → IsSubtype head t t) → ((t u v : A) → IsSubtype head t u → IsSubtype head u v → IsSubtype head t v) → (t u b c : A) (n : ℕ) → head t ≡ node.Variable n b → head u ≡ node.Variable n c → variable_of (head c) ≢ Some n → IsSubtype head b c }
{}

/// So where all labels are own, and each number of type parameters has one bound, subtyping is an order of all types.
pub fn subtyping_is_an_order<A>()
    ensures reflexive { (head : A → Node A) → ((t : A) → OwnLabels (head t)) → (t : A) → IsSubtype head t t }
    ensures transitive { (head : A → Node A) → ((t : A) → OwnLabels (head t)) → SameBound head → (t u v : A) → IsSubtype head t u → IsSubtype head u v → IsSubtype head t v }
{}

/// Labels that messages tell apart are found at their own fields.
pub fn told_labels_are_own<A>()
    ensures { (x : Node A) → AreTold x → OwnLabels x }
{}
