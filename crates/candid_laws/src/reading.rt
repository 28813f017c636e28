//! The bytes of a message tell its values.
ghost use Rattle.std.specs.Prelude.{◌≡◌, ℕ, List, [], ◌++◌};
ghost use Rattle.mo_types.specs.declared.node.Node.{Node};
ghost use Rattle.mo_types.specs.declared.node.TypeId.{TypeId};
ghost use Rattle.mo_types.specs.Values.{HaveTypes, Values};
ghost use Rattle.mo_types.specs.Code.{Code, Reads};

/// Two values of the same types with the same bytes are equal, and no message goes on behind another of its types.
pub fn one_value()
    ensures value { (head : TypeId → Node TypeId) (types : List TypeId) (bytes : List ℕ) (v w : Values) → Reads head types bytes v → Reads head types bytes w → v ≡ w }
    ensures end { (head : TypeId → Node TypeId) (types : List TypeId) (bytes more : List ℕ) (v w : Values) → Reads head types bytes v → Reads head types (bytes ++ more) w → more ≡ [] }
{}

/// The same of messages as they are written, whatever the types are.
pub fn one_written_value()
    ensures { (head : TypeId → Node TypeId) (types : List TypeId) (bytes : List ℕ) (v w : Values) → HaveTypes head types v → HaveTypes head types w → Code head types v bytes → Code head types w bytes → v ≡ w }
{}
