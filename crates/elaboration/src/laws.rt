//! Laws of elaboration.
ghost use Rattle.std.specs.Prelude.{ℕ};
ghost use Rattle.core_ir.specs.Expressions.{Core};
ghost use Rattle.core_ir.specs.Worlds.{Context, World};
ghost use Rattle.elaboration.specs.Meeting.{ChecksDecide};

/// On a value of its type, the checks of a pattern lead on where it matches, with the values of its names under their names, and
/// else to what is done where they fail. They leave the world as it is, and weigh at most twice what the pattern does.
pub fn checks_decide()
    ensures { (program : Core) (context : Context) (nodes : ℕ) (world : World) → ChecksDecide program context nodes world }
{}
