//! Rows, computed: what elaborated programs do is what the programs do by their meaning.
ghost use Rattle.std.specs.Prelude.{◌≡◌};
ghost use Rattle.mo_meaning.specs.LedgerRows.{wanted_ledger};
ghost use Rattle.mo_meaning.specs.TextRows.{wanted_texts};
ghost use Rattle.elaboration.specs.WeightRows.{weights, wanted_weights};
ghost use Rattle.elaboration.specs.Rows.{actors, catches, orders, text_rows, the_ledger, upgrades, waits, wanted_actors, wanted_catches, wanted_orders, wanted_upgrades, wanted_waits};

/// Methods, names that are no methods, and a trap.
pub fn actors_are_as_wanted()
    ensures { actors ≡ wanted_actors }
{}

/// What an `await` commits, which executions run between it and its answer, and errors.
pub fn waits_are_as_wanted()
    ensures { waits ≡ wanted_waits }
{}

/// The order of evaluation, loops, labels, option blocks and arrays.
pub fn orders_are_as_wanted()
    ensures { orders ≡ wanted_orders }
{}

/// Errors and jumps on their way outward.
pub fn catches_are_as_wanted()
    ensures { catches ≡ wanted_catches }
{}

/// Texts and their characters, and loops that test behind their body.
pub fn texts_are_as_wanted()
    ensures { text_rows ≡ wanted_texts }
{}

/// What an upgrade keeps, and the hooks around it.
pub fn upgrades_are_as_wanted()
    ensures { upgrades ≡ wanted_upgrades }
{}

/// A ledger.
pub fn ledgers_are_as_wanted()
    ensures { the_ledger ≡ wanted_ledger }
{}

/// What they cost: at most twice the weight, and no more depth.
pub fn weights_are_within()
    ensures { weights ≡ wanted_weights }
{}
