//! Laws of actors of constant queries, as the contracts of calls that do nothing.
ghost use Rattle.query_module.specs.Laws.{QueriesSettle, RefinedModulesAnswer, RunsAreAnswers};

/// A run of actors of constant queries, of which the first event installs one, is told by the methods of that one: a query
/// or a call of a method is replied to with its number, a call of `__resume` with no values, and any other is rejected.
pub fn runs_are_answers()
    ensures { RunsAreAnswers }
{}

/// So is the host's run of a module that refines the program of the methods, wherever it stands among other modules.
pub fn refined_modules_answer()
    ensures { RefinedModulesAnswer }
{}

/// Executions of such programs stay as they are, so that the programs and the events determine the items.
pub fn queries_settle()
    ensures { QueriesSettle }
{}
