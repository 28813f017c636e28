//! Laws of runs, for any language that has such parts.
ghost use Rattle.std.specs.Prelude.{ℕ};
ghost use Rattle.mo_actor.specs.Languages.{language};
ghost use Rattle.mo_actor.specs.Laws.{CallsAreAnsweredOnce, CallsAreBounded, CallsAreNumbered, CallsOfQueriesLeaveNoTrace, ExhaustionsShow, PassesCarryRuns, QueriesLeaveNoTrace, RunsAreLooser, RunsAreTranscripts, TranscriptsAreRuns, TrapsAreUndone, UnansweredCallsWait, UnexhaustedRunsAreOne, UnexhaustedRunsShowNone};
ghost use Rattle.mo_actor.specs.Measures.{Never, Spent, Unmeasured};

/// What is computed from the extents of executions is a run, and each run is computed from some extents: so worked rows
/// are checked by evaluation.
pub fn runs_are_computed<Store, Body, Waiting, Results, Value, Method, Kept>()
    ensures sound { TranscriptsAreRuns (language Store Body Waiting Results Value Method Kept) Unmeasured }
    ensures complete { RunsAreTranscripts (language Store Body Waiting Results Value Method Kept) Unmeasured }
    ensures measured { (steps stack pages : ℕ) → TranscriptsAreRuns (language Store Body Waiting Results Value Method Kept) (Spent steps stack pages) }
    ensures all_measured { (steps stack pages : ℕ) → RunsAreTranscripts (language Store Body Waiting Results Value Method Kept) (Spent steps stack pages) }
{}

/// A run in which each exhaustion is deserved is a run; so what is shown of all runs holds of it. A run in which nothing is
/// exhausted is one by any limits.
pub fn measured_runs_are_runs<Store, Body, Waiting, Results, Value, Method, Kept>()
    ensures runs { (steps stack pages : ℕ) → RunsAreLooser (language Store Body Waiting Results Value Method Kept) (Spent steps stack pages) Unmeasured }
    ensures unexhausted { (steps stack pages : ℕ) → RunsAreLooser (language Store Body Waiting Results Value Method Kept) Never (Spent steps stack pages) }
{}

/// Where nothing is exhausted, the programs and the events determine the items; and the items tell whether anything was.
pub fn unexhausted_runs_are_one<Store, Body, Waiting, Results, Value, Method, Kept>()
    ensures one { UnexhaustedRunsAreOne (language Store Body Waiting Results Value Method Kept) }
    ensures shown { ExhaustionsShow (language Store Body Waiting Results Value Method Kept) Unmeasured }
    ensures none { UnexhaustedRunsShowNone (language Store Body Waiting Results Value Method Kept) }
{}

/// Outgoing calls are numbered from 0 in the order made, over traps and upgrades.
pub fn calls_are_numbered<Store, Body, Waiting, Results, Value, Method, Kept>()
    ensures { CallsAreNumbered (language Store Body Waiting Results Value Method Kept) Unmeasured }
{}

/// No incoming call is answered twice, over traps and upgrades.
pub fn calls_are_answered_once<Store, Body, Waiting, Results, Value, Method, Kept>()
    ensures { CallsAreAnsweredOnce (language Store Body Waiting Results Value Method Kept) Unmeasured }
{}

/// A query method leaves the actor as it was, whichever way it is called, but for the number of its call.
pub fn queries_leave_no_trace<Store, Body, Waiting, Results, Value, Method, Kept>()
    ensures queries { QueriesLeaveNoTrace (language Store Body Waiting Results Value Method Kept) Unmeasured }
    ensures calls { CallsOfQueriesLeaveNoTrace (language Store Body Waiting Results Value Method Kept) Unmeasured }
{}

/// A trap, an exhaustion included, leaves the store as it was, and the outgoing calls but that the answered one is no
/// longer open. In an upgrade it leaves the whole old actor.
pub fn traps_are_undone<Store, Body, Waiting, Results, Value, Method, Kept>()
    ensures { TrapsAreUndone (language Store Body Waiting Results Value Method Kept) Unmeasured }
{}

/// Between events each incoming call is answered, or has an open outgoing call that may bring its answer.
pub fn unanswered_calls_wait<Store, Body, Waiting, Results, Value, Method, Kept>()
    ensures { UnansweredCallsWait (language Store Body Waiting Results Value Method Kept) Unmeasured }
{}

/// Where no execution leaves more than 500 calls open, no state of a run has more.
pub fn calls_are_bounded<Store, Body, Waiting, Results, Value, Method, Kept>()
    ensures { CallsAreBounded (language Store Body Waiting Results Value Method Kept) Unmeasured }
{}

/// A pass from one language to another carries runs: where each execution of a new program comes out as one of the old
/// program, from states that are related to related ones, what the new programs do over a list of events, the old ones do. A
/// relation is here what a test says; the lemma of `proofs/` has it for any relation.
pub fn passes_carry_runs<
    Store,
    Body,
    Waiting,
    Results,
    Value,
    Method,
    Kept,
    NewStore,
    NewBody,
    NewWaiting,
    NewResults,
    NewValue,
    NewMethod,
    NewKept,
>()
    ensures runs { PassesCarryRuns (language Store Body Waiting Results Value Method Kept) (language NewStore NewBody NewWaiting NewResults NewValue NewMethod NewKept) Unmeasured Unmeasured }
    ensures measured { (steps stack pages steps_before stack_before pages_before : ℕ) → PassesCarryRuns (language Store Body Waiting Results Value Method Kept) (language NewStore NewBody NewWaiting NewResults NewValue NewMethod NewKept) (Spent steps_before stack_before pages_before) (Spent steps stack pages) }
{}
