//! Rows, computed: small types are subtypes, or fail at a depth, as the language manual says.
ghost use Rattle.std.specs.Prelude.{◌≡◌};
ghost use Rattle.mo_types.specs.Sub.{IsSubtype};
ghost use Rattle.mo_types.specs.Wire.{SameWire, wire};
ghost use Rattle.mo_types.specs.declared.wire.Ref.TheVariants.{Of};
ghost use Rattle.subtype_laws.specs.Equal.{AreEqual};
ghost use Rattle.subtype_laws.specs.Rows.{AreAnswered, answers, refused, subtypes, unequal, wanted};
ghost use Rattle.subtype_laws.specs.Samples.{AText, FieldNat, LooseNat, LooseText, TwiceA, TwiceNat, sample_head};

/// The least depth at which each question fails, as it is computed.
pub fn answers_are_as_wanted()
    ensures refused { answers refused ≡ wanted refused }
    ensures unequal { answers unequal ≡ wanted unequal }
    ensures subtypes { answers subtypes ≡ wanted subtypes }
{}

/// The same by the definition of subtyping: what fails does so at its depth first, and the others are subtypes at every
/// depth.
pub fn answers_are_by_the_rules()
    ensures refused { AreAnswered refused }
    ensures unequal { AreAnswered unequal }
    ensures subtypes { AreAnswered subtypes }
{}

/// Where two type parameters of one number had different bounds, subtyping would not be transitive.
pub fn different_bounds_break_transitivity()
    ensures first { IsSubtype sample_head LooseNat LooseText }
    ensures second { IsSubtype sample_head LooseText AText }
    ensures both { IsSubtype sample_head LooseNat AText → ⊥ }
{}

/// Where a type had one label twice, it need not be below itself.
pub fn repeated_labels_break_reflexivity()
    ensures { IsSubtype sample_head TwiceA TwiceA → ⊥ }
{}

/// And equal types need not have equal Candid types: with one field twice a record has two.
pub fn repeated_labels_change_candid_types()
    ensures equal { AreEqual sample_head TwiceNat FieldNat }
    ensures wires { SameWire (wire sample_head) (wire sample_head) (Of TwiceNat) (Of FieldNat) → ⊥ }
{}
