//! What a judged program is written out to, declaration by declaration.
ghost use Rattle.program_laws.specs.Around.{NamesAreReached, ProgramsAreWalked};
ghost use Rattle.program_laws.specs.Programs.{ProgramsAreMade};

/// Of a program that is judged each declaration becomes a typed one where it stands, and each public and system function a typed one behind them.
pub fn programs_are_made()
    ensures { ProgramsAreMade }
{}

/// Its declarations are typed one after the other in the order of evaluation: behind the actor, its public functions, and what was kept of its stable variables.
pub fn programs_are_walked()
    ensures { ProgramsAreWalked }
{}

/// Each name that is bound at the end of the declarations stands there, where the public and system functions are.
pub fn names_are_reached()
    ensures { NamesAreReached }
{}
