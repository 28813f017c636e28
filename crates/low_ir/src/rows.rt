//! Rows of calls, computed: the function does nothing, and its contract says that the definitions give what they should.
ghost use Rattle.std.specs.Prelude.{◌≡◌};
ghost use Rattle.low_ir.specs.Formed.{ModuleIsFormed};
ghost use Rattle.low_ir.specs.Rows.{answers, example, wanted};

/// Results and traps of calls of a small module, with the steps, stack words and pages that they take; the module is formed.
pub fn calls_are_as_wanted()
    ensures rows { answers ≡ wanted }
    ensures formed { ModuleIsFormed example }
{}
