//! What the definition means: typed values, and the bytes of their Candid values.
ghost use Rattle.std.specs.Prelude.{◌≡◌, ℕ, ◌↔◌, List, map};
ghost use Rattle.mo_types.specs.declared.node.Node.{Node};
ghost use Rattle.mo_types.specs.declared.node.TypeId.{TypeId};
ghost use Rattle.mo_types.specs.declared.datum.Datum.{Datum};
ghost use Rattle.mo_types.specs.declared.wire.Wire.{Wire};
ghost use Rattle.mo_types.specs.Graph.{Slot, head_at};
ghost use Rattle.mo_types.specs.Values.{HaveTypes, Values};
ghost use Rattle.mo_types.specs.Form.{form};
ghost use Rattle.mo_types.specs.Wire.{refs, wire};
ghost use Rattle.mo_types.specs.Spelling.{AnyCount, FewEmpty, Spell, padded, shortest};
ghost use Rattle.candid_types.specs.Shapes.{IsTableOf, ref_of};
ghost use Rattle.candid_types.specs.Inside.{below};
ghost use Rattle.candid_forms.specs.Forms.{Forms, FormsBy, IsPartAt, inside_ref};

/// As messages are read: with padded numbers, and few items without bytes.
pub fn read_forms()
    ensures typed { (head : TypeId → Node TypeId) (types : List TypeId) (values : Values) (bytes : List ℕ) → Forms padded (FewEmpty (wire head)) head (refs types) values bytes → HaveTypes head types values }
    ensures spelled { (head : TypeId → Node TypeId) (types : List TypeId) (values : Values) (bytes : List ℕ) → Forms padded (FewEmpty (wire head)) head (refs types) values bytes → Spell padded (FewEmpty (wire head)) (wire head) (refs types) (form head types values) bytes }
    ensures back { (head : TypeId → Node TypeId) (types : List TypeId) (values : Values) (bytes : List ℕ) → HaveTypes head types values → Spell padded (FewEmpty (wire head)) (wire head) (refs types) (form head types values) bytes → Forms padded (FewEmpty (wire head)) head (refs types) values bytes }
{}

/// As messages are written: with the shortest numbers.
pub fn written_forms()
    ensures typed { (head : TypeId → Node TypeId) (types : List TypeId) (values : Values) (bytes : List ℕ) → Forms shortest AnyCount head (refs types) values bytes → HaveTypes head types values }
    ensures spelled { (head : TypeId → Node TypeId) (types : List TypeId) (values : Values) (bytes : List ℕ) → Forms shortest AnyCount head (refs types) values bytes → Spell shortest AnyCount (wire head) (refs types) (form head types values) bytes }
    ensures back { (head : TypeId → Node TypeId) (types : List TypeId) (values : Values) (bytes : List ℕ) → HaveTypes head types values → Spell shortest AnyCount (wire head) (refs types) (form head types values) bytes → Forms shortest AnyCount head (refs types) values bytes }
{}

/// The types inside a part, by number, as reading goes.
pub fn inside_by_number()
    ensures { (slots : List Slot) (shapes : List (Wire ℕ)) (of : ℕ) (part : Datum) (bytes : List ℕ) → IsTableOf slots shapes → IsPartAt padded (FewEmpty (wire (head_at slots))) (head_at slots) (ref_of of) part bytes → map ref_of (below shapes of part) ≡ inside_ref (head_at slots) (ref_of of) part }
{}

/// Values of types by number, as reading goes.
pub fn read_by_number()
    ensures { (slots : List Slot) (shapes : List (Wire ℕ)) (types : List ℕ) (values : Values) (bytes : List ℕ) → IsTableOf slots shapes → FormsBy (λ t. IsPartAt padded (FewEmpty (wire (head_at slots))) (head_at slots) (ref_of t)) (below shapes) types values bytes ↔ Forms padded (FewEmpty (wire (head_at slots))) (head_at slots) (map ref_of types) values bytes }
{}

/// The same, as writing goes.
pub fn written_by_number()
    ensures { (slots : List Slot) (shapes : List (Wire ℕ)) (types : List ℕ) (values : Values) (bytes : List ℕ) → IsTableOf slots shapes → FormsBy (λ t. IsPartAt shortest AnyCount (head_at slots) (ref_of t)) (below shapes) types values bytes ↔ Forms shortest AnyCount (head_at slots) (map ref_of types) values bytes }
{}
