//! Laws of tables.
ghost use Rattle.std.specs.Prelude.{◌≡◌, List, slice_get, Some};
ghost use Rattle.type_terms.specs.declared.form.Form.{Form};
ghost use Rattle.type_terms.specs.declared.form.TermId.{TermId};
ghost use Rattle.type_terms.specs.Tables.{Distinct, Founded};
ghost use Rattle.type_definitions.specs.Meanings.{term, term_of};
ghost use Rattle.type_definitions.specs.Tables.{Grows, Within};

/// Different terms of a table are different.
pub fn terms_are_different()
    ensures { (forms : List Form) → Founded forms → Distinct forms → (a b : TermId) → Within forms a → Within forms b → term forms a ≡ term forms b → a.index ≡ b.index }
{}

/// A term of a table is that of its form, and stays while the table grows.
pub fn tables_keep_terms()
    ensures forms { (forms : List Form) (id : TermId) (f : Form) → Founded forms → slice_get forms id.index ≡ Some f → term forms id ≡ term_of (term forms) f }
    ensures stay { (forms later : List Form) (id : TermId) → Grows forms later → Within forms id → term later id ≡ term forms id }
{}
