//! Rows of tables, computed: the function does nothing, and its contract says that the definitions give what they should.
ghost use Rattle.std.specs.Prelude.{◌≡◌};
ghost use Rattle.wire_tables.specs.Rows.{marks, wanted};

/// What is known of the types of some tables, and which bytes are no tables.
pub fn marks_are_as_wanted()
    ensures { marks ≡ wanted }
{}
