//! Rows of calls, computed: the function does nothing, and its contract says that the routine gives what the definition reads.
ghost use Rattle.std.specs.Prelude.{◌≡◌};
ghost use Rattle.wire_table_code.specs.Rows.{answers, wanted};

/// What the routine finds in some bytes.
pub fn tables_are_read()
    ensures { answers ≡ wanted }
{}
