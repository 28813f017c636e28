//! Subtyping is the greatest relation that its rules allow.
ghost use Rattle.std.specs.Prelude.{◌≡◌, ◌↔◌, ℕ, List};
ghost use Rattle.std.specs.Bool.{Decides};
ghost use Rattle.mo_num.specs.declared.kind.Kind.TheVariants as kind;
ghost use Rattle.mo_types.specs.declared.node.Node.{Node};
ghost use Rattle.mo_types.specs.declared.node.Node.TheVariants as node;
ghost use Rattle.mo_types.specs.Sub.{Each, IsSubtype, NodeBelow, Sub};
ghost use Rattle.subtype_laws.specs.Closed.{IsClosed, IsClosedList};
ghost use Rattle.subtype_laws.specs.Decided.{is_below};
ghost use Rattle.subtype_laws.specs.Inversion.{IsAbove, IsBelow};

/// A type is below another exactly where the rule of their heads holds, with subtyping of the parts.
pub fn subtypes_are_so_by_their_heads<A>()
    ensures { (head : A → Node A) (t u : A) → IsSubtype head t u ↔ NodeBelow (IsSubtype head) u (head t) (head u) }
{}

/// Where the rules ask of pairs of types nothing but some of these pairs, and known subtypes, all of them are subtypes. The
/// pairs are named by the values of any type, so that any relation can be given as its pairs.
pub fn closed_pairs_are_subtypes<A, I>()
    ensures { (head : A → Node A) (low high : I → A) → IsClosed low high head → (i : I) → IsSubtype head (low i) (high i) }
{}

/// So a list of pairs of which the rules ask nothing but pairs of the list, and known subtypes, has subtypes alone.
pub fn closed_lists_have_subtypes<A>()
    ensures { (head : A → Node A) (pairs : List (A × A)) → IsClosedList head pairs → Each (λ p. IsSubtype head p.0 p.1) pairs }
{}

/// What is above a type is told by the type's head.
pub fn heads_tell_what_is_above<A>()
    ensures { (head : A → Node A) (t u : A) → IsSubtype head t u ↔ IsAbove (IsSubtype head) u (head t) (head u) }
{}

/// And what is below it.
pub fn heads_tell_what_is_below<A>()
    ensures { (head : A → Node A) (t u : A) → IsSubtype head t u ↔ IsBelow (IsSubtype head) u (head u) (head t) }
{}

/// To each depth it can be computed whether a type is below another.
pub fn each_depth_is_computed<A>()
    ensures { (head : A → Node A) (n : ℕ) (t u : A) → Decides (is_below head n t u) (Sub head n t u) }
{}

/// `Any` is above all types, `None` below all, `Null` below each option, and `Nat` below `Int`.
pub fn some_types_are_below_others<A>()
    ensures any { (head : A → Node A) (t u : A) → head u ≡ node.Any → IsSubtype head t u }
    ensures none { (head : A → Node A) (t u : A) → head t ≡ node.Bottom → IsSubtype head t u }
    ensures null { (head : A → Node A) (t u a : A) → head t ≡ node.Null → head u ≡ node.Opt a → IsSubtype head t u }
    ensures nat { (head : A → Node A) (t u : A) → head t ≡ node.Number kind.Nat → head u ≡ node.Number kind.Int → IsSubtype head t u }
{}
