//! What follows from a closed list.
ghost use Rattle.std.specs.Prelude.{◌≡◌, ◌↔◌, List, ℕ};
ghost use Rattle.mo_types.specs.Graph.{Slot, head_at};
ghost use Rattle.mo_types.specs.Sub.{IsSubtype, Sub};
ghost use Rattle.mo_subtype.specs.Renamed.{on_node};
ghost use Rattle.mo_types.specs.declared.node.TypeId.{TypeId};
ghost use Rattle.mo_subtype.specs.declared.pairs.Pair.{Pair};
ghost use Rattle.mo_subtype.specs.Certificate.{Closed, In};

/// Each pair of a closed list is of a type and one of its supertypes.
pub fn closed_pairs_hold()
    ensures { (types : List Slot) (pairs : List (Pair TypeId)) (q : Pair TypeId) → Closed (head_at types) pairs → In pairs q → IsSubtype (head_at types) q.low q.high }
{}

/// Where another graph has the same heads under other ids, the ids stand for the same types.
pub fn renaming_keeps_subtyping()
    ensures { (old new : List Slot) (f : TypeId → TypeId) → ((a : TypeId) → head_at new (f a) ≡ on_node f (head_at old a)) → (n : ℕ) (t u : TypeId) → Sub (head_at old) n t u ↔ Sub (head_at new) n (f t) (f u) }
{}
