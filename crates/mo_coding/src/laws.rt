//! Laws of the coding.
ghost use Rattle.std.specs.Prelude.{◌≡◌, ℕ, ℤ, Decides, List, []};
ghost use Rattle.mo_num.specs.Leb.{IsShortestLeb, IsShortestSleb};
ghost use Rattle.mo_types.specs.Code.{Saved, Variable};
ghost use Rattle.mo_types.specs.Header.{Visits};
ghost use Rattle.mo_types.specs.Wire.{SameWire};
ghost use Rattle.mo_types.specs.declared.node.TypeId.{TypeId};
ghost use Rattle.mo_types.specs.declared.wire.Ref.{Ref};
ghost use Rattle.mo_types.specs.declared.wire.TableRef.{TableRef};
ghost use Rattle.mo_types.specs.declared.wire.Wire.{Wire};
ghost use Rattle.mo_meaning.specs.Coding.{IsExtent, IsFaithful, Types};
ghost use Rattle.mo_coding.specs.Equality.{same};
ghost use Rattle.mo_coding.specs.Extents.{extent};
ghost use Rattle.mo_coding.specs.Faithful.{faithful};
ghost use Rattle.mo_coding.specs.Heads.{of_graph, of_saved, of_table};
ghost use Rattle.mo_coding.specs.Numbers.{leb, sleb};
ghost use Rattle.mo_coding.specs.Order.{order_of};

/// The nodes and entries of types are counted: the number that is computed is one, and no other is.
pub fn reached_types_are_counted()
    ensures is { (slots : Types) (types : List TypeId) → IsExtent slots types (extent slots types) }
    ensures only { (slots : Types) (types : List TypeId) (n : ℕ) → IsExtent slots types n → extent slots types ≡ n }
{}

/// Equality of Candid types is decided: of types of two graphs, and of the types of a header and of a graph.
pub fn types_are_told_apart()
    ensures graphs { (old new : Types) (t u : Ref TypeId) → Decides (same (of_graph old) (of_graph new) t u) (SameWire (of_graph old).head (of_graph new).head t u) }
    ensures header { (table : List (Wire TableRef)) (slots : Types) (r : TableRef) (t : Ref TypeId) → Decides (same (of_table table) (of_graph slots) r t) (SameWire (of_table table).head (of_graph slots).head r t) }
{}

/// The order of first visit is computed: of types of a graph, and of the record of stable variables.
pub fn types_are_visited()
    ensures graph { (slots : Types) (types : List (Ref TypeId)) → Visits (of_graph slots).head [] types (order_of (of_graph slots) types) }
    ensures saved { (slots : Types) (variables : List (Variable TypeId)) (types : List (Saved TypeId)) → Visits (of_saved slots variables).head [] types (order_of (of_saved slots variables) types) }
{}

/// Numbers are spelled in the fewest digits in base 128.
pub fn numbers_are_spelled()
    ensures unsigned { (n : ℕ) → IsShortestLeb (leb n) n }
    ensures signed { (n : ℤ) → IsShortestSleb (sleb n) n }
{}

/// A faithful coding exists: this one gives the canonical bytes of messages and of stable memory, reads exactly what may be
/// read, keeps exactly what may be kept, and measures headers and types. So what is said of all faithful codings is said of
/// one at least.
pub fn a_faithful_coding_exists()
    ensures { IsFaithful faithful }
{}
