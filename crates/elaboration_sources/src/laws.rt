//! Laws of accepted sources that are elaborated.
ghost use Rattle.elaboration_sources.specs.Formed.{AcceptedProgramsAreFormed};
ghost use Rattle.elaboration_sources.specs.Sources.{AcceptedProgramsAreJudged, AcceptedRunsElaborate, AcceptedRunsKeep, MeasuredAcceptedRunsKeep};

/// The program of an accepted source is written out of a judged one.
pub fn accepted_programs_are_judged()
    ensures { AcceptedProgramsAreJudged }
{}

/// What is elaborated of it is formed, where its bodies keep within their measures, which the code of elaboration tests.
pub fn accepted_programs_are_formed()
    ensures { AcceptedProgramsAreFormed }
{}

/// So what programs of accepted sources do where they are elaborated, over a list of events of a host, with calls, answers, installs and upgrades, they do by
/// the meaning, exhaustions deserved or not, at no more than so many times the weight, three at least, and no deeper.
pub fn accepted_runs_are_kept()
    ensures runs { AcceptedRunsKeep }
    ensures measured { MeasuredAcceptedRunsKeep }
{}

/// And what they do by the meaning, where nothing is exhausted, they do where they are elaborated.
pub fn accepted_runs_are_elaborated()
    ensures { AcceptedRunsElaborate }
{}
