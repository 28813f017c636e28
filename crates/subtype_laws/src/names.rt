//! Subtyping does not go by names.
ghost use Rattle.std.specs.Prelude.{◌≡◌, ◌↔◌, ℕ};
ghost use Rattle.mo_types.specs.declared.node.Node.{Node};
ghost use Rattle.mo_types.specs.Sub.{IsSubtype, Sub};
ghost use Rattle.subtype_laws.specs.Renamed.{AreRenamed, Corresponds};

/// Where types of two graphs have the same names, and under each name the same head with parts of the same names, they are
/// subtypes in the one graph exactly where they are in the other, to a depth and at all. Several types may have one name,
/// and one type several.
pub fn names_do_not_matter<A, B, I>()
    ensures depths { (head : A → Node A) (other : B → Node B) (old : I → A) (new : I → B) → AreRenamed old new head other → (n : ℕ) (i j : I) → Sub head n (old i) (old j) ↔ Sub other n (new i) (new j) }
    ensures types { (head : A → Node A) (other : B → Node B) (old : I → A) (new : I → B) → AreRenamed old new head other → (i j : I) → IsSubtype head (old i) (old j) ↔ IsSubtype other (new i) (new j) }
{}

/// So a map of types under which heads correspond keeps subtyping, and what is none.
pub fn maps_of_types_keep_subtyping<A, B>()
    ensures depths { (head : A → Node A) (other : B → Node B) (f : A → B) → ((a : A) → Corresponds (λ c d. f c ≡ d) (head a) (other (f a))) → (n : ℕ) (t u : A) → Sub head n t u ↔ Sub other n (f t) (f u) }
    ensures types { (head : A → Node A) (other : B → Node B) (f : A → B) → ((a : A) → Corresponds (λ c d. f c ≡ d) (head a) (other (f a))) → (t u : A) → IsSubtype head t u ↔ IsSubtype other (f t) (f u) }
{}
