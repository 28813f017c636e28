//! Rows computed by the machine: what it comes to is what the rules of the language say.
ghost use Rattle.std.specs.Prelude.{◌≡◌};
ghost use Rattle.mo_machine.specs.Rows.{actors, bodies, wanted_actors, wanted_bodies};

/// Methods, traps, waits and errors; loops, labels, options, iterators and arrays.
pub fn the_machine_computes()
    ensures actors { actors ≡ wanted_actors }
    ensures bodies { bodies ≡ wanted_bodies }
{}
