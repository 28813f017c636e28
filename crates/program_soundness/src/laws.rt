//! Laws of well-typed programs that run.
ghost use Rattle.std.specs.Prelude.{◌≡◌, ◌≤◌, ◌∷◌, List, None, Option, Some, [], length, map, true, ℕ};
ghost use Rattle.play_script.specs.declared.event.Event.{Event};
ghost use Rattle.play_script.specs.declared.event.Event.TheVariants as event;
ghost use Rattle.play_script.specs.declared.item.Item.{Item};
ghost use Rattle.mo_types.specs.declared.node.TypeId.{TypeId};
ghost use Rattle.mo_types.specs.Calls.{CallTable};
ghost use Rattle.mo_types.specs.Graph.{head_at};
ghost use Rattle.mo_types.specs.Sub.{Each, IsSomething};
ghost use Rattle.mo_values.specs.Shapes.{Bytes};
ghost use Rattle.mo_actor.specs.Executions.{Completes};
ghost use Rattle.mo_actor.specs.Measures.{Spent, Unmeasured};
ghost use Rattle.mo_actor.specs.Outcomes.{Outcome};
ghost use Rattle.mo_actor.specs.Programs as actor;
ghost use Rattle.mo_actor.specs.Programs.{Effects};
ghost use Rattle.mo_actor.specs.Reached.{Reaches};
ghost use Rattle.mo_actor.specs.States.{ActorState};
ghost use Rattle.mo_actor.specs.Steps.{ActorRun, Step};
ghost use Rattle.typed_tree.specs.Examples.{generic_types, uses_generic};
ghost use Rattle.typed_tree.specs.Language.{Value};
ghost use Rattle.typed_tree.specs.ProgramView.{program};
ghost use Rattle.typed_tree.specs.Wants.{Of, Want};
ghost use Rattle.typed_tree.specs.WellTyped.{WellTyped};
ghost use Rattle.typed_tree.specs.declared.program.Program.{Program};
ghost use Rattle.mo_meaning.specs.Acts.{Given};
ghost use Rattle.mo_meaning.specs.Actor.{meaning, surroundings};
ghost use Rattle.mo_meaning.specs.Bodies.{body_execution, body_run, results_of};
ghost use Rattle.mo_meaning.specs.Coding.{Coding, IsFaithful, Types};
ghost use Rattle.mo_meaning.specs.Configurations.{Configuration, End, Ended, Returns, Surroundings};
ghost use Rattle.mo_meaning.specs.Kernel.{Body, Fields, Kept, kernel};
ghost use Rattle.mo_meaning.specs.Messages.{message_of, read_values};
ghost use Rattle.mo_meaning.specs.Saving.{alone, saving_from, save};
ghost use Rattle.mo_meaning.specs.Starting.{start, start_from};
ghost use Rattle.mo_meaning.specs.Turns.{turns};
ghost use Rattle.mo_soundness.specs.Keeps.{HasEach};
ghost use Rattle.mo_soundness.specs.Lawful.{IsLawful};
ghost use Rattle.mo_soundness.specs.Running.{AnswerTypes, still};
ghost use Rattle.mo_soundness.specs.Worlds.{plain_world};
ghost use Rattle.program_soundness.specs.Actors.{AreTyped, IsNoInstallation, IsProper, IsSaid, IsTypedProgram, StateTyped};
ghost use Rattle.program_soundness.specs.Agreement.{Agrees};
ghost use Rattle.program_soundness.specs.Bodies.{BodyFits, EffectsFit, FieldsTyped};
ghost use Rattle.program_soundness.specs.Declared.{Declared, around_declarations};
ghost use Rattle.program_soundness.specs.Examples.{IsStarted, answers, basic_types};
ghost use Rattle.program_soundness.specs.Results.{AreResults, GivesResults};
ghost use Rattle.program_soundness.specs.Roles.{calling};
ghost use Rattle.program_soundness.specs.Runs.{EndsFit, Gives, IsValueOf, ReturnsOrTraps, RunFits, Stands};
ghost use Rattle.program_soundness.specs.Starting.{AreExports};
ghost use Rattle.program_soundness.specs.Starts.{IsStarting, quiet};
ghost use Rattle.program_soundness.specs.Worlds.{IsCarried, running};
ghost use Rattle.typed_tree.specs.Shareable.{IsShareable};
ghost use Rattle.typed_tree.specs.Types.{AreLawful};
ghost use Rattle.typed_tree.specs.Basics.{HasBasics};

/// The declarations of a well-typed program are typed as they run, whatever calls are under way and whatever cells there are:
/// each declaration around those behind it, then the functions of the actor at the types of its methods, and last the cells
/// of the stable variables at theirs. Only in methods calls may be made.
pub fn declarations_are_typed()
    ensures { (p : Program) (w : WellTyped p) → (answers : AnswerTypes) (kinds : List TypeId) → Declared p.types answers kinds p (around_declarations p.types w.own w.methods p.stable) (program p).body }
{}

/// Values of shareable types have a message. What a message is read as at shareable types has these types. So it is where a program
/// runs, at the shareable types of its graph.
pub fn messages_keep_types()
    ensures out { (coding : Coding) (types : Types) (answers : AnswerTypes) (kinds : List TypeId) (ts : List TypeId) (vs : List Value) → Each (IsShareable (head_at types)) ts → HasEach (plain_world (head_at types)) answers kinds (map (λ t. Of t) ts) vs → (bytes : Bytes) × (message_of coding types ts vs ≡ Some bytes) }
    ensures back { (coding : Coding) → IsFaithful coding → (types : Types) → IsLawful (head_at types) → (answers : AnswerTypes) (kinds : List TypeId) (ts : List TypeId) (vs : List Value) (bytes : Bytes) → Each (IsShareable (head_at types)) ts → read_values coding types ts bytes ≡ Some vs → HasEach (plain_world (head_at types)) answers kinds (map (λ t. Of t) ts) vs }
    ensures sent { (coding : Coding) (types : Types) → AreLawful types → (answers : AnswerTypes) (kinds : List TypeId) (ts : List TypeId) (vs : List Value) → Each (IsCarried types) ts → HasEach (running types) answers kinds (map (λ t. Of t) ts) vs → (bytes : Bytes) × (message_of coding types ts vs ≡ Some bytes) }
    ensures received { (coding : Coding) → IsFaithful coding → (types : Types) → AreLawful types → (answers : AnswerTypes) (kinds : List TypeId) (ts : List TypeId) (vs : List Value) (bytes : Bytes) → Each (IsCarried types) ts → read_values coding types ts bytes ≡ Some vs → HasEach (running types) answers kinds (map (λ t. Of t) ts) vs }
{}

/// An execution that begins at a closed typed expression, over a typed store and calls that agree, is so after any number of
/// turns, or has ended: with a value of the type, with an answer, at an `await`, or by a trap. It never breaks for want of an
/// operand's form.
pub fn executions_keep_types()
    ensures { (s : Surroundings) → AreLawful s.types → HasBasics s.types → (w : Want TypeId) (n : ℕ) (c : Configuration) (answers : AnswerTypes) (kinds : List TypeId) → Stands s (Gives (running s.types) w) (IsValueOf (running s.types) w) c answers kinds → RunFits s (Gives (running s.types) w) (IsValueOf (running s.types) w) answers kinds (turns s n c) }
{}

/// So does a method with arguments of its types, and a body that waited and is given an answer of its type or an error. What it
/// leaves is typed: the store, the calls, and what waits now.
pub fn bodies_end_as_typed()
    ensures ends { (coding : Coding) (p : Program) → WellTyped p → (own : Bytes) (table : CallTable (List TypeId) Given) (answers : AnswerTypes) (kinds : List TypeId) (fields : Fields) (body : Body) (n : ℕ) → answers.may_call ≡ true → FieldsTyped p.types (program p) answers kinds fields → Agrees (running p.types) answers kinds table → BodyFits p.types (program p) answers kinds body → EndsFit (surroundings coding p.types own table) (GivesResults (running p.types) (results_of body)) (AreResults (running p.types) (results_of body)) answers kinds (body_run (surroundings coding p.types own table) fields body n) }
    ensures left { (coding : Coding) (p : Program) → WellTyped p → (own : Bytes) (table : CallTable (List TypeId) Given) (answers : AnswerTypes) (kinds : List TypeId) (fields : Fields) (body : Body) (n : ℕ) (effects : Effects kernel) → answers.may_call ≡ true → FieldsTyped p.types (program p) answers kinds fields → Agrees (running p.types) answers kinds table → BodyFits p.types (program p) answers kinds body → (body_execution (surroundings coding p.types own table) fields body n).completion ≡ Some (Completes effects) → EffectsFit p.types (program p) answers kinds table effects }
{}

/// And so does a start, also over what an upgrade kept: it makes no call and waits on none, and it returns or traps. What it
/// returns is what the actor exports, over a typed store.
pub fn starts_end_as_typed()
    ensures ends { (coding : Coding) → IsFaithful coding → (p : Program) → WellTyped p → (own : Bytes) → length own ≤ 29 → (kept : Option Kept) (n : ℕ) → EndsFit (alone coding p.types own) (IsStarting p.types p kept) (AreExports p.types p) quiet [] (turns (alone coding p.types own) n (start_from coding p.types (program p) own kept)) }
    ensures settles { (coding : Coding) → IsFaithful coding → (p : Program) → WellTyped p → (own : Bytes) → length own ≤ 29 → (kept : Option Kept) (n : ℕ) (c : Configuration) (end : End) → turns (alone coding p.types own) n (start_from coding p.types (program p) own kept) ≡ Ended c end → ReturnsOrTraps end }
    ensures left { (coding : Coding) → IsFaithful coding → (p : Program) → WellTyped p → (own : Bytes) → length own ≤ 29 → (kept : Option Kept) (n : ℕ) (fields : Fields) → (start coding p.types (program p) own kept n).completion ≡ Some (Completes fields) → (kinds : List TypeId) × FieldsTyped p.types (program p) (calling quiet) kinds fields }
{}

/// And so does the hook before an upgrade, over what the actor was: it returns or traps, too. Where it returns, each stable variable
/// has a value of its type to keep.
pub fn savings_end_as_typed()
    ensures ends { (coding : Coding) (p : Program) → WellTyped p → (own : Bytes) (answers : AnswerTypes) (kinds : List TypeId) (fields : Fields) (n : ℕ) → FieldsTyped p.types (program p) answers kinds fields → EndsFit (alone coding p.types own) (GivesResults (running p.types) []) (AreResults (running p.types) []) (still answers) kinds (turns (alone coding p.types own) n (saving_from (program p) fields)) }
    ensures settles { (coding : Coding) (p : Program) → WellTyped p → (own : Bytes) (answers : AnswerTypes) (kinds : List TypeId) (fields : Fields) (n : ℕ) (c : Configuration) (end : End) → FieldsTyped p.types (program p) answers kinds fields → turns (alone coding p.types own) n (saving_from (program p) fields) ≡ Ended c end → ReturnsOrTraps end }
    ensures saved { (coding : Coding) (p : Program) → WellTyped p → (own : Bytes) (answers : AnswerTypes) (kinds : List TypeId) (fields : Fields) (n : ℕ) (c : Configuration) (v : Value) → FieldsTyped p.types (program p) answers kinds fields → turns (alone coding p.types own) n (saving_from (program p) fields) ≡ Ended c (Returns v) → IsSomething (save coding p.types (program p) own fields n).completion }
{}

/// The state of an actor whose programs are typed stays typed in every event, wherever executions are exhausted. So it is typed in
/// every state that a run comes to.
pub fn actors_stay_typed()
    ensures event { (coding : Coding) → IsFaithful coding → (programs : List (actor.Program kernel)) → AreTyped coding programs → (own : Bytes) → length own ≤ 29 → (e : Event) (state : ActorState kernel) (reached : Outcome (ActorState kernel)) → IsProper e → StateTyped coding state → Step Unmeasured programs own e state reached → StateTyped coding reached.next }
    ensures measured { (coding : Coding) → IsFaithful coding → (programs : List (actor.Program kernel)) → AreTyped coding programs → (own : Bytes) → length own ≤ 29 → (steps stack pages : ℕ) (e : Event) (state : ActorState kernel) (reached : Outcome (ActorState kernel)) → IsProper e → StateTyped coding state → Step (Spent steps stack pages) programs own e state reached → StateTyped coding reached.next }
    ensures run { (coding : Coding) → IsFaithful coding → (programs : List (actor.Program kernel)) → AreTyped coding programs → (own : Bytes) → length own ≤ 29 → (events : List Event) (last : ActorState kernel) → Each IsProper events → Reaches Unmeasured programs own events last → StateTyped coding last }
{}

/// And it is never stuck: under any limits each event comes to something, of which the executions complete, trap, or use up a limit.
/// Of an installation over an actor nothing is said. So events behind the one installation always have a run.
pub fn actors_go_on()
    ensures event { (coding : Coding) → IsFaithful coding → (programs : List (actor.Program kernel)) → AreTyped coding programs → (own : Bytes) → length own ≤ 29 → (steps stack pages : ℕ) (e : Event) (state : ActorState kernel) → IsProper e → IsSaid e state → StateTyped coding state → (reached : Outcome (ActorState kernel)) × Step (Spent steps stack pages) programs own e state reached }
    ensures run { (coding : Coding) → IsFaithful coding → (programs : List (actor.Program kernel)) → AreTyped coding programs → (own : Bytes) → length own ≤ 29 → (steps stack pages number : ℕ) (events : List Event) → Each IsProper events → Each IsNoInstallation events → (items : List Item) × ActorRun (Spent steps stack pages) programs own (event.Install number ∷ events) items }
{}

/// A small actor is as these laws ask, and its start comes to its end. So is one with a function that has a type parameter.
pub fn small_programs_are_typed()
    ensures typed { (coding : Coding) (first : ℕ) → IsTypedProgram coding (meaning coding first basic_types (program answers)) }
    ensures generic { (coding : Coding) (first : ℕ) → IsTypedProgram coding (meaning coding first generic_types (program uses_generic)) }
    ensures started { (coding : Coding) (own : Bytes) → IsStarted (start coding basic_types (program answers) own None 20).completion }
{}
