//! Candid values tell the values that they are of.
ghost use Rattle.std.specs.Prelude.{◌≡◌, List};
ghost use Rattle.mo_types.specs.declared.node.Node.{Node};
ghost use Rattle.mo_types.specs.declared.node.TypeId.{TypeId};
ghost use Rattle.mo_types.specs.Form.{form};
ghost use Rattle.mo_types.specs.Values.{HaveTypes, Values};
ghost use Rattle.mo_types.specs.Code.{Keep};

/// No two values of the same types have the same Candid values.
pub fn one_value_of_a_form()
    ensures { (head : TypeId → Node TypeId) (types : List TypeId) (v w : Values) → HaveTypes head types v → HaveTypes head types w → form head types v ≡ form head types w → v ≡ w }
{}

/// A value is kept as one value of a type of the next program at most.
pub fn one_kept_value()
    ensures { (head next : TypeId → Node TypeId) (old new : TypeId) (value v w : Values) → Keep head next old new value v → Keep head next old new value w → v ≡ w }
{}
