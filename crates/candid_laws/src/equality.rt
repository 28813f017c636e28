//! Messages depend on types up to equality alone.
ghost use Rattle.std.specs.Prelude.{◌≡◌, ◌∷◌, [], ℕ, List};
ghost use Rattle.mo_types.specs.declared.node.Node.{Node};
ghost use Rattle.mo_types.specs.declared.node.TypeId.{TypeId};
ghost use Rattle.mo_types.specs.Wire.{SameParts, SameWire, refs, wire};
ghost use Rattle.mo_types.specs.Form.{form};
ghost use Rattle.mo_types.specs.Values.{HaveTypes, Values};
ghost use Rattle.mo_types.specs.Code.{Code, Keep, Reads};

/// Values with the same Candid values, of types that are equal place by place, have the same message.
pub fn equal_types_have_one_message()
    ensures { (head other : TypeId → Node TypeId) (types others : List TypeId) (v w : Values) (bytes : List ℕ) → SameParts (SameWire (wire head) (wire other)) (refs types) (refs others) → form head types v ≡ form other others w → Code head types v bytes → Code other others w bytes }
{}

/// And a message that is read as the ones is read as the others.
pub fn equal_types_are_read_alike()
    ensures { (head other : TypeId → Node TypeId) (types others : List TypeId) (v w : Values) (bytes : List ℕ) → SameParts (SameWire (wire head) (wire other)) (refs types) (refs others) → form head types v ≡ form other others w → HaveTypes other others w → Reads head types bytes v → Reads other others bytes w }
{}

/// A message that is read as a value is read, at the type of the next program, as what that value is kept as.
pub fn kept_values_are_read_alike()
    ensures { (head next : TypeId → Node TypeId) (old new : TypeId) (v w : Values) (bytes : List ℕ) → Keep head next old new v w → Reads head (old ∷ []) bytes v → Reads next (new ∷ []) bytes w }
{}
