//! The Candid values of typed values, one part after the other.
ghost use Rattle.std.specs.Prelude.{◌≡◌, List};
ghost use Rattle.mo_types.specs.declared.node.Node.{Node};
ghost use Rattle.mo_types.specs.declared.node.TypeId.{TypeId};
ghost use Rattle.mo_types.specs.Form.{form};
ghost use Rattle.mo_types.specs.Values.{HaveTypes, Values, flat, tree};
ghost use Rattle.kept_forms.specs.Parts.{formed, unformed, waiting, Next};

/// The parts of their Candid values, from their own.
pub fn forms_by_parts()
    ensures { (head : TypeId → Node TypeId) (types : List TypeId) (values : Values) → HaveTypes head types values → formed head (waiting types) (flat values) ≡ flat (form head types values) }
{}

/// And their own parts, from those of their Candid values.
pub fn values_by_parts()
    ensures { (head : TypeId → Node TypeId) (types : List TypeId) (values : Values) → HaveTypes head types values → unformed head Next (waiting types) (flat (form head types values)) ≡ flat values }
{}

/// Both are told by their parts.
pub fn values_are_told()
    ensures values { (head : TypeId → Node TypeId) (types : List TypeId) (values : Values) → HaveTypes head types values → tree (flat values) ≡ values }
    ensures forms { (head : TypeId → Node TypeId) (types : List TypeId) (values : Values) → HaveTypes head types values → tree (flat (form head types values)) ≡ form head types values }
{}
