//! The canonical header is one, and tells the types up to equality.
ghost use Rattle.std.specs.Prelude.{◌≡◌, ◌≤◌, ℕ, List, [], length};
ghost use Rattle.mo_types.specs.declared.node.Node.{Node};
ghost use Rattle.mo_types.specs.declared.node.TypeId.{TypeId};
ghost use Rattle.mo_types.specs.declared.wire.Ref.{Ref};
ghost use Rattle.mo_types.specs.Graph.{Slot, head_at};
ghost use Rattle.mo_types.specs.Wire.{SameParts, SameWire, refs, wire};
ghost use Rattle.mo_types.specs.Spelling.{shortest};
ghost use Rattle.mo_types.specs.Header.{IsCanonical, Visits};
ghost use Rattle.candid_laws.specs.Sound.{AreSound};

/// Types have one order of first visit, and one canonical header.
pub fn one_header()
    ensures order { (head : TypeId → Node TypeId) (types : List TypeId) (order other : List (Ref TypeId)) → Visits (wire head) [] (refs types) order → Visits (wire head) [] (refs types) other → order ≡ other }
    ensures bytes { (head : TypeId → Node TypeId) (types : List TypeId) (bytes other : List ℕ) → IsCanonical (wire head) shortest (refs types) bytes → IsCanonical (wire head) shortest (refs types) other → bytes ≡ other }
{}

/// Types that are equal place by place, of one graph or of two, have the same canonical header.
pub fn equal_types_have_one_header()
    ensures { (head other : TypeId → Node TypeId) (types others : List TypeId) (bytes : List ℕ) → SameParts (SameWire (wire head) (wire other)) (refs types) (refs others) → IsCanonical (wire head) shortest (refs types) bytes → IsCanonical (wire other) shortest (refs others) bytes }
{}

/// And sound types that have the same canonical header are equal place by place.
pub fn types_of_one_header_are_equal()
    ensures { (head other : TypeId → Node TypeId) (types others : List TypeId) (bytes : List ℕ) → AreSound head types → AreSound other others → IsCanonical (wire head) shortest (refs types) bytes → IsCanonical (wire other) shortest (refs others) bytes → SameParts (SameWire (wire head) (wire other)) (refs types) (refs others) }
{}

/// The header of types of a graph has no more entries than the graph has types. A graph has at most 4,096, so that a
/// reader takes each header that was written.
pub fn entries_are_types()
    ensures { (slots : List Slot) (types : List TypeId) (order : List (Ref TypeId)) → Visits (wire (head_at slots)) [] (refs types) order → length order ≤ length slots }
{}
