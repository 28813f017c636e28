//! Rows of calls, computed: the function does nothing, and its contract says that the definitions give what they should.
ghost use Rattle.std.specs.Prelude.{◌≡◌};
ghost use Rattle.wire_numbers.specs.Rows.{read, wanted_read, wanted_written, written};

/// What bytes read as, and the bytes of numbers, by calls of the routines in a small module.
pub fn calls_are_as_wanted()
    ensures read { read ≡ wanted_read }
    ensures written { written ≡ wanted_written }
{}
