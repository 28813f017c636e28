//! Laws of what elaboration asks.
ghost use Rattle.std.specs.Prelude.{ℕ};
ghost use Rattle.core_ir.specs.Expressions.{Core};
ghost use Rattle.core_ir.specs.Worlds.{Context};
ghost use Rattle.elaboration_premises.specs.Methods.{MethodsAreTyped, MethodsMeet, MethodsServe};
ghost use Rattle.elaboration_premises.specs.Programs.{HooksStand, MethodsStand, StartsStand};
ghost use Rattle.elaboration_premises.specs.Scoped.{TreesStand};
ghost use Rattle.elaboration_premises.specs.Serving.{ErrorsAreTyped, ExecutionsServe, PatternsMeet, ResumptionsServe};
ghost use Rattle.elaboration_premises.specs.Starts.{SavesServe, StartsServe};
ghost use Rattle.elaboration_premises.specs.Whole.{TypedExecutionsFollow, TypedExecutionsGoOn};

/// Where a typed pattern meets a value of its type, the pattern may stand on what belongs to that in Core: a literal is compared with a value of its
/// form, a tag is looked for in a variant, and parts are those of a tuple or of an object that has them.
pub fn typed_patterns_meet()
    ensures { PatternsMeet }
{}

/// Each state that a typed execution comes to, by any number of steps, is as elaboration asks, and it never breaks; so it is where an execution waited
/// and is given what it waits for. What stands at an `await` is typed, too, where an error is thrown in its place.
pub fn typed_executions_serve()
    ensures begun { ExecutionsServe }
    ensures resumed { ResumptionsServe }
    ensures thrown { ErrorsAreTyped }
{}

/// A method that is called with arguments of its types has as many parameters as Core's values, each pattern may stand on its value, and the execution
/// that the call goes on to is typed. So all of its execution is as elaboration asks.
pub fn typed_methods_are_entered()
    ensures meets { MethodsMeet }
    ensures typed { MethodsAreTyped }
    ensures serve { MethodsServe }
{}

/// So are the start of a well-typed program, also over what an upgrade kept, and the hook before an upgrade.
pub fn typed_starts_serve()
    ensures starts { StartsServe }
    ensures saves { SavesServe }
{}

/// So of a typed execution Core's run is where it is after any number of steps, with its prints and its calls, at no more than twice its weight and what
/// is owed, and no deeper; and where the execution goes on for ever, so does the run.
pub fn typed_executions_are_followed()
    ensures follow { (program : Core) (context : Context) (nodes : ℕ) → TypedExecutionsFollow program context nodes }
    ensures go_on { (program : Core) (context : Context) (nodes : ℕ) → TypedExecutionsGoOn program context nodes }
{}

/// A well-typed tree, in which `next` of an iterator is not written, has a place for each of its names, has calls of shared functions, awaits and errors
/// only where a body may have them, and writes one operand at most for a built-in function: so do the declarations of a program, its methods and its
/// hooks, in each scope with a place for each name around them.
pub fn typed_trees_stand()
    ensures trees { TreesStand }
    ensures starts { StartsStand }
    ensures methods { MethodsStand }
    ensures hooks { HooksStand }
{}
