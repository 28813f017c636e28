//! Equal types are the same in messages.
ghost use Rattle.std.specs.Prelude.{◌≡◌, List};
ghost use Rattle.mo_types.specs.declared.node.Node.{Node};
ghost use Rattle.mo_types.specs.Form.{form};
ghost use Rattle.mo_types.specs.Sub.{Each};
ghost use Rattle.mo_types.specs.Values.{HaveTypes, Values};
ghost use Rattle.mo_types.specs.Wire.{SameParts, SameWire, refs, wire};
ghost use Rattle.subtype_laws.specs.Equal.{AreEqual, IsTold};

/// Types that are equal place by place have equal Candid types, where messages tell the labels of each type that stands in
/// them apart.
pub fn equal_types_have_equal_candid_types<A>()
    ensures { (head : A → Node A) (types others : List A) → SameParts (AreEqual head) types others → Each (IsTold head) types → Each (IsTold head) others → SameParts (SameWire (wire head) (wire head)) (refs types) (refs others) }
{}

/// And the same values, with the same Candid values.
pub fn equal_types_have_the_same_values<A>()
    ensures values { (head : A → Node A) (types others : List A) (v : Values) → SameParts (AreEqual head) types others → Each (IsTold head) types → Each (IsTold head) others → HaveTypes head types v → HaveTypes head others v }
    ensures forms { (head : A → Node A) (types others : List A) (v : Values) → SameParts (AreEqual head) types others → Each (IsTold head) types → Each (IsTold head) others → form head types v ≡ form head others v }
{}
