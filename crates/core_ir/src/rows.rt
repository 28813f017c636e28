//! Rows, computed: what programs of these languages do is what the language manual's rules ask.
ghost use Rattle.std.specs.Prelude.{◌≡◌, ◌∷◌, []};
ghost use Rattle.core_ir.specs.ActorRows.{day, plays, wanted_day};
ghost use Rattle.core_ir.specs.CoreMachine.{core_machine};
ghost use Rattle.core_ir.specs.Examples.{examples};
ghost use Rattle.core_ir.specs.Rows.{answers, await_rows, plain_rows, refused_rows, saved, started, wanted, wanted_saved, wanted_started};

/// The examples as an actor: calls, answers, errors, a future that is awaited twice, an upgrade.
pub fn actors_are_as_wanted()
    ensures { plays (core_machine examples) examples day ≡ wanted_day }
{}

/// Awaits in arguments, in loops, under labels and handlers.
pub fn awaits_are_as_wanted()
    ensures { answers (core_machine examples) 300 await_rows ≡ wanted await_rows }
{}

/// Of 501 calls the last one is refused.
pub fn calls_are_limited()
    ensures { answers (core_machine examples) 60 refused_rows ≡ wanted refused_rows }
{}

/// Labels, handlers and loops; functions that share variables, call one another and make functions; arrays by calls.
pub fn functions_are_as_wanted()
    ensures { answers (core_machine examples) 300 plain_rows ≡ wanted plain_rows }
{}

/// The start of an actor, and what precedes an upgrade.
pub fn starts_are_as_wanted()
    ensures started { started (core_machine examples) ≡ wanted_started }
    ensures saved { saved (core_machine examples) ≡ wanted_saved }
{}
