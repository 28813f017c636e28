//! Laws of executions as an actor sees them.
ghost use Rattle.std.specs.Prelude.{List};
ghost use Rattle.mo_types.specs.declared.node.TypeId.{TypeId};
ghost use Rattle.mo_types.specs.Calls.{CallTable};
ghost use Rattle.mo_values.specs.Shapes.{Bytes};
ghost use Rattle.core_ir.specs.Values.{Value};
ghost use Rattle.core_ir.specs.Worlds.{Given};
ghost use Rattle.core_ir.specs.Expressions.{Core};
ghost use Rattle.core_ir.specs.Messages.{Messages};
ghost use Rattle.mo_meaning.specs.Configurations.{Surroundings};
ghost use Rattle.mo_meaning.specs.Kernel.{Kept};
ghost use Rattle.elaboration_actors.specs.Laws.{MethodsEnd, MethodsFollow, ResumptionsEnd, ResumptionsFollow};
ghost use Rattle.elaboration_actors.specs.Actors.{MessagesAreTold};
ghost use Rattle.elaboration_actors.specs.Starts.{IncompatibleFollow, KeptIsRestored, MethodsAreCode, StartsBegin, StartsEnd};
ghost use Rattle.elaboration_actors.specs.Runs.{MeasuredRunsKeep, RunsKeep};

/// A method with arguments that belong together: after any number of turns of Core's execution it has shown no more than that of the typed program
/// after some, at no more than so many times its weight, and no deeper; where it has ended, the other has ended with the same reply, reject or trap, or
/// waits on the same call, with the same calls and a store that belongs.
pub fn methods_are_followed()
    ensures { (coding : Messages Kept) (program : Core) (own : Bytes) (table : CallTable (List TypeId) Given) (names : List Value) (s : Surroundings) → MethodsFollow coding program own table names s }
{}

/// What waited, with an answer that belongs: likewise.
pub fn resumptions_are_followed()
    ensures { (coding : Messages Kept) (program : Core) (own : Bytes) (table : CallTable (List TypeId) Given) (names : List Value) (s : Surroundings) → ResumptionsFollow coding program own table names s }
{}

/// And where the typed program's method has ended, or what waited, that of the elaborated one has.
pub fn executions_end()
    ensures methods { (coding : Messages Kept) (program : Core) (own : Bytes) (table : CallTable (List TypeId) Given) (names : List Value) (s : Surroundings) → MethodsEnd coding program own table names s }
    ensures waiting { (coding : Messages Kept) (program : Core) (own : Bytes) (table : CallTable (List TypeId) Given) (names : List Value) (s : Surroundings) → ResumptionsEnd coding program own table names s }
{}

/// The actor of an elaborated program is told of messages what that of the typed one is told, and refuses what an upgrade hands on where that does.
pub fn messages_are_told()
    ensures { MessagesAreTold }
{}

/// What an upgrade hands on is taken by both alike: it is no value of the new types, or values that belong together, which hold no function.
pub fn kept_is_restored()
    ensures { KeptIsRestored }
{}

/// An upgrade to a program whose stable variables are of other types traps alike.
pub fn incompatible_upgrades_follow()
    ensures { IncompatibleFollow }
{}

/// At the beginning of a start the names of both belong together: the actor itself, its methods, and what was kept.
pub fn starts_begin()
    ensures { StartsBegin }
{}

/// What is made of the methods of a program is code of them, where they stand so that they may be elaborated.
pub fn methods_are_code()
    ensures { MethodsAreCode }
{}

/// Where both starts end in an environment of names that belong together, the actors have begun alike: the names that Core reads there are the actor's,
/// and its methods are the functions behind the declarations.
pub fn starts_end()
    ensures { StartsEnd }
{}

/// What elaborated programs do over a list of events, with calls, answers and upgrades, the typed programs do by the meaning, exhaustions deserved or not:
/// where their executions are sound and their starts and saves are followed, at no more than so many times the weight, and no deeper.
pub fn runs_are_kept()
    ensures runs { RunsKeep }
    ensures measured { MeasuredRunsKeep }
{}
