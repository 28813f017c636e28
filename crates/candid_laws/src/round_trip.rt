//! What is written is read.
ghost use Rattle.std.specs.Prelude.{ℕ, ◌≤◌, List, [], ◌∷◌, length};
ghost use Rattle.mo_types.specs.declared.node.Node.{Node};
ghost use Rattle.mo_types.specs.declared.node.TypeId.{TypeId};
ghost use Rattle.mo_types.specs.Examples.{list_head};
ghost use Rattle.mo_types.specs.declared.wire.Ref.TheVariants.{Of};
ghost use Rattle.mo_types.specs.Graph.{Slot, head_at};
ghost use Rattle.mo_types.specs.Wire.{refs, wire};
ghost use Rattle.mo_types.specs.Values.{HaveTypes, Values};
ghost use Rattle.mo_types.specs.Code.{Code, Reads};
ghost use Rattle.candid_laws.specs.Examples.{result_head};
ghost use Rattle.candid_laws.specs.Sound.{AreFew, AreSound, IsWellLabelled, Reached};

/// The message of values is read as them, where their types are sound, and where their vectors have at most 10,000
/// items without bytes.
pub fn written_is_read()
    ensures { (head : TypeId → Node TypeId) (types : List TypeId) (values : Values) (bytes : List ℕ) → HaveTypes head types values → AreSound head types → AreFew head (refs types) values → Code head types values bytes → Reads head types bytes values }
{}

/// What was read and is written again is read as the same.
pub fn read_is_read_again()
    ensures { (head : TypeId → Node TypeId) (types : List TypeId) (values : Values) (bytes again : List ℕ) → Reads head types bytes values → AreSound head types → Code head types values again → Reads head types again values }
{}

/// Types that are sound: one that contains itself, and a variant of two tags.
pub fn some_types_are_sound()
    ensures list { AreSound list_head (0 ∷ []) }
    ensures result { AreSound result_head (0 ∷ []) }
{}

/// Types of a graph are sound where each that is reached from them is.
pub fn types_of_a_graph_are_sound()
    ensures { (slots : List Slot) (types : List TypeId) → length slots ≤ 4096 → ((t : TypeId) → Reached (wire (head_at slots)) (refs types) (Of t) → IsWellLabelled (head_at slots) (head_at slots t)) → AreSound (head_at slots) types }
{}
