//! Laws of the machine: it goes by the language's reductions, with as many of them, at the same costs.
ghost use Rattle.std.specs.Prelude.{◌≡◌, ℕ, List, Option, map};
ghost use Rattle.mo_types.specs.declared.node.Node.{Node};
ghost use Rattle.mo_types.specs.declared.node.TypeId.{TypeId};
ghost use Rattle.typed_tree.specs.Language as language;
ghost use Rattle.typed_tree.specs.Programs.{Program};
ghost use Rattle.mo_meaning.specs.Acts.{Given};
ghost use Rattle.mo_meaning.specs.Actor.{meaning};
ghost use Rattle.mo_meaning.specs.Bodies as bodies;
ghost use Rattle.mo_meaning.specs.Coding.{Coding, Types};
ghost use Rattle.mo_meaning.specs.Configurations as configurations;
ghost use Rattle.mo_meaning.specs.Configurations.{Surroundings};
ghost use Rattle.mo_meaning.specs.Kernel.{Body, Fields};
ghost use Rattle.mo_meaning.specs.Turns as reductions;
ghost use Rattle.mo_machine.specs.Acts.{Store};
ghost use Rattle.mo_machine.specs.Actor.{by_machine};
ghost use Rattle.mo_machine.specs.Agrees.{Agrees};
ghost use Rattle.mo_machine.specs.Configurations.{Configuration, Run};
ghost use Rattle.mo_machine.specs.Frames.{Focus, Stack};
ghost use Rattle.mo_machine.specs.Measure.{Falls, measure};
ghost use Rattle.mo_machine.specs.Moves.{move};
ghost use Rattle.mo_machine.specs.States.{EntersAlike, ResumesAlike, RunsAlike, SavesAlike, StartsAlike, TypedActor, by_meaning, by_states};
ghost use Rattle.mo_actor.specs.Measures.{Spent, Unmeasured};
ghost use Rattle.mo_actor.specs.Steps.{ActorRun};
ghost use Rattle.play_script.specs.declared.event.Event.{Event};
ghost use Rattle.play_script.specs.declared.item.Item.{Item};
ghost use Rattle.mo_machine.specs.Runs.{Follows, FollowsGiven, Reaches, ReachesGiven, begun, body_run, unload_configuration, unload_run};
ghost use Rattle.mo_machine.specs.Turns.{as_reply, turns, turns_given};
ghost use Rattle.mo_machine.specs.Unload.{unload};
ghost use Rattle.mo_machine.specs.Values.{load};

/// A closed value of the language, loaded into the machine, stands for itself.
pub fn loading_is_undone()
    ensures { (v : language.Value) → unload (load v) ≡ v }
{}

/// A move changes nothing of the expression that the machine's state stands for. Where no move is possible, all is done and
/// the expression is the value; or a reduction is due, and the machine's is the language's, whatever a call or an `await` is
/// given, with its cost and store, what it prints, asks for, waits on or throws, and where it jumps to.
pub fn steps_agree_with_reduction()
    ensures { (head : TypeId → Node TypeId) (given : Option Given) (store : Store) (f : Focus) (k : Stack) → Agrees head given store (move f k) f k }
{}

/// A move makes a measure smaller, so there are finitely many before a reduction is due or all is done.
pub fn moves_come_to_an_end()
    ensures { (f : Focus) (k : Stack) → Falls (move f k) (measure f k) }
{}

/// So many turns by the machine come to what as many turns of the language come to: still running or ended alike, with the
/// same weight, depth, prints, calls and store. So it is where the first turn is of an `await` that is given its part.
pub fn turns_are_the_same()
    ensures turns { (s : Surroundings) (n : ℕ) (c : Configuration) → reductions.turns s n (unload_configuration c) ≡ unload_run (turns s n c) }
    ensures given { (s : Surroundings) (g : Given) (n : ℕ) (c : Configuration) → reductions.turns_given s g n (unload_configuration c) ≡ unload_run (turns_given s g n c) }
{}

/// The value of a shared body becomes its reply alike.
pub fn replies_are_the_same()
    ensures { (s : Surroundings) (types : List TypeId) (r : Run) → unload_run (as_reply s types r) ≡ reductions.as_reply s types (unload_run r) }
{}

/// Whole executions are the same for each number of turns: those that begin at an expression, those that go on at an `await`,
/// and those of methods with their replies.
pub fn executions_are_the_same()
    ensures begun { (s : Surroundings) (n : ℕ) (c : configurations.Configuration) → reductions.turns s n c ≡ unload_run (turns s n (begun c)) }
    ensures resumed { (s : Surroundings) (g : Given) (n : ℕ) (c : configurations.Configuration) → reductions.turns_given s g n c ≡ unload_run (turns_given s g n (begun c)) }
    ensures bodies { (s : Surroundings) (fields : Fields) (body : Body) (n : ℕ) → bodies.body_run s fields body n ≡ unload_run (body_run s fields body n) }
{}

/// Where so many turns come to, some number of the machine's steps comes to.
pub fn turns_follow_in_steps()
    ensures follows { (s : Surroundings) (n : ℕ) (c : Configuration) → Follows s n c }
    ensures given { (s : Surroundings) (g : Given) (n : ℕ) (c : Configuration) → FollowsGiven s g n c }
{}

/// Where so many of the machine's steps come to, at most as many turns come to.
pub fn steps_reach_turns()
    ensures reaches { (s : Surroundings) (m : ℕ) (c : Configuration) → Reaches s m c }
    ensures given { (s : Surroundings) (g : Given) (m : ℕ) (c : Configuration) → ReachesGiven s g m c }
{}

/// The program whose executions are the machine's is the program: an actor that runs by the machine runs as it is to.
pub fn actors_run_by_the_machine()
    ensures { (coding : Coding) (first : ℕ) (types : Types) (p : Program) → by_machine coding first types p ≡ meaning coding first types p }
{}

/// An actor that keeps the machine's own values and states between its executions goes by the meaning: each execution of a
/// body, of a start and of a saving stands for that of the meaning, whatever the actor holds.
pub fn kept_states_stand_for_the_meaning()
    ensures enters { (coding : Coding) (first : ℕ) (types : Types) (p : Program) → EntersAlike coding first types p }
    ensures resumes { (coding : Coding) (first : ℕ) (types : Types) (p : Program) → ResumesAlike coding first types p }
    ensures runs { (coding : Coding) (first : ℕ) (types : Types) (p : Program) → RunsAlike coding first types p }
    ensures starts { (coding : Coding) (first : ℕ) (types : Types) (p : Program) → StartsAlike coding first types p }
    ensures saves { (coding : Coding) (first : ℕ) (types : Types) (p : Program) → SavesAlike coding first types p }
{}

/// So what actors that keep the machine's values and states do over a list of events, with calls, answers and upgrades, is
/// what they do by the meaning, under any limits.
pub fn runs_with_kept_states_are_runs()
    ensures runs { (coding : Coding) (actors : List TypedActor) (own : List ℕ) (events : List Event) (items : List Item) → ActorRun Unmeasured (map (by_states coding) actors) own events items → ActorRun Unmeasured (map (by_meaning coding) actors) own events items }
    ensures measured { (steps stack pages : ℕ) (coding : Coding) (actors : List TypedActor) (own : List ℕ) (events : List Event) (items : List Item) → ActorRun (Spent steps stack pages) (map (by_states coding) actors) own events items → ActorRun (Spent steps stack pages) (map (by_meaning coding) actors) own events items }
{}
