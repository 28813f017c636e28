//! Programs that are run by computation: what comes of their events is what the language manual and the interface
//! specification say.
ghost use Rattle.std.specs.Prelude.{◌≡◌, ◌∷◌, [], Some, codes, false, true};
ghost use Rattle.mo_meaning.specs.AwaitRows.{answered_future, await_commits, errors, interleaved, items_of_futures, second_answers, upgrade_waits, waiting, wanted_await_commits, wanted_errors, wanted_interleaved, wanted_second_answers, wanted_upgrade_waits};
ghost use Rattle.typed_tree.specs.Language.{Val, unit};
ghost use Rattle.mo_meaning.specs.BenchRows.{bench};
ghost use Rattle.mo_meaning.specs.CatchRows.{catches, wanted_catches};
ghost use Rattle.mo_meaning.specs.TextRows.{texts, wanted_texts};
ghost use Rattle.mo_meaning.specs.CallLimitRows.{refused, refused_resume, refused_text, wanted_refused, wanted_refused_resume, wanted_refused_text};
ghost use Rattle.mo_meaning.specs.CounterRows.{counter, names, three_calls, trap_undoes, wanted_names, wanted_three_calls, wanted_trap_undoes};
ghost use Rattle.mo_meaning.specs.FutureRows.{futures, wanted_futures};
ghost use Rattle.mo_meaning.specs.LedgerRows.{the_ledger, wanted_ledger};
ghost use Rattle.mo_meaning.specs.LimitRows.{fills, spins, stuck_upgrade, wanted_fills, wanted_spins, wanted_stuck_upgrade};
ghost use Rattle.mo_meaning.specs.MessageRows.{messages, wanted_messages};
ghost use Rattle.mo_meaning.specs.OrderRows.{orders, wanted_orders};
ghost use Rattle.mo_meaning.specs.UpgradeRows.{all_upgrades, wanted_upgrades};
ghost use Rattle.mo_meaning.specs.WeightRows.{answer_counts, counter_counts, wanted_answer, message_costs, method_counts, wanted_counter_counts, wanted_quiet, wanted_go, wanted_inc, wanted_message_costs};

/// A counter, methods that are not there, and a trap.
pub fn counters_are_as_wanted()
    ensures calls { three_calls ≡ wanted_three_calls }
    ensures names { names ≡ wanted_names }
    ensures trap { trap_undoes ≡ wanted_trap_undoes }
{}

/// What an `await` commits, which executions run between it and its answer, and what comes of answers.
pub fn awaits_are_as_wanted()
    ensures commits { await_commits ≡ wanted_await_commits }
    ensures interleaved { interleaved ≡ wanted_interleaved }
    ensures upgrade { upgrade_waits ≡ wanted_upgrade_waits }
    ensures answered { answered_future ≡ Some items_of_futures }
    ensures second { second_answers ≡ wanted_second_answers }
    ensures errors { errors ≡ wanted_errors }
{}

/// Futures that are awaited late, twice or never; what a trap on an answer leaves; what is kept over an `await`.
pub fn futures_are_as_wanted()
    ensures { futures ≡ wanted_futures }
{}

/// Numbers, texts, records and lists in arguments and replies.
pub fn messages_are_as_wanted()
    ensures { messages ≡ wanted_messages }
{}

/// The order of evaluation, loops, labels, option blocks and arrays.
pub fn orders_are_as_wanted()
    ensures { orders ≡ wanted_orders }
{}

/// Errors and jumps on their way outward, and the codes of errors.
pub fn catches_are_as_wanted()
    ensures { catches ≡ wanted_catches }
{}

/// Texts, their characters, and digits.
pub fn texts_are_as_wanted()
    ensures { texts ≡ wanted_texts }
{}

/// A ledger that asks another actor before it pays.
pub fn ledger_is_as_wanted()
    ensures { the_ledger ≡ wanted_ledger }
{}

/// What an upgrade keeps, drops and refuses.
pub fn upgrades_are_as_wanted()
    ensures { all_upgrades ≡ wanted_upgrades }
{}

/// Of 501 calls the last one is refused, also where it is the one by which a body would go on.
pub fn calls_are_limited()
    ensures call { refused ≡ wanted_refused }
    ensures text { refused_text ≡ wanted_refused_text }
    ensures resume { refused_resume ≡ wanted_refused_resume }
{}

/// Executions that are cut off, and whether their weight bears it out.
pub fn exhaustions_are_as_wanted()
    ensures steps { spins 60 ≡ wanted_spins true }
    ensures early { spins 5 ≡ wanted_spins false }
    ensures heap { fills 600 ≡ wanted_fills true }
    ensures little { fills 6 ≡ wanted_fills false }
    ensures upgrade { stuck_upgrade ≡ wanted_stuck_upgrade }
{}

/// The weight and depth of an execution, and what it costs to read messages.
pub fn weights_are_as_wanted()
    ensures execution { method_counts counter (codes "inc") ≡ wanted_inc }
    ensures call { method_counts waiting (codes "go") ≡ wanted_go }
    ensures answer { answer_counts waiting (codes "add") ≡ wanted_answer }
    ensures print { method_counts (bench [] (Val unit)) (codes "quiet") ≡ wanted_quiet }
    ensures upgrade { counter_counts ≡ wanted_counter_counts }
    ensures messages { message_costs ≡ wanted_message_costs }
{}
