//! Laws of judged programs, and of their whole runs.
ghost use Rattle.elaboration_judged.specs.Formed.{JudgedProgramsAreFormed};
ghost use Rattle.elaboration_judged.specs.Judged.{JudgedProgramsAreSound, JudgedProgramsKeepApart};
ghost use Rattle.elaboration_judged.specs.Runs.{JudgedRunsElaborate, JudgedRunsKeep, MeasuredJudgedRunsKeep};

/// What is written out of a judged source is well typed, also where the functions behind the declarations know nothing of what an upgrade kept; its functions
/// open no more at once than they have nodes, and its names have their places.
pub fn judged_programs_are_sound()
    ensures kept_apart { JudgedProgramsKeepApart }
    ensures sound { JudgedProgramsAreSound }
{}

/// What is elaborated of such a program is formed, where its bodies keep within their measures, which the code of elaboration tests: all that it names is there.
pub fn judged_programs_are_formed()
    ensures { JudgedProgramsAreFormed }
{}

/// What such programs do where they are elaborated, over a list of events of a host, with calls, answers, installs and upgrades, they do by the meaning,
/// exhaustions deserved or not, at no more than so many times the weight, three at least, and no deeper.
pub fn judged_runs_are_kept()
    ensures runs { JudgedRunsKeep }
    ensures measured { MeasuredJudgedRunsKeep }
{}

/// And what they do by the meaning, where nothing is exhausted, they do where they are elaborated.
pub fn judged_runs_are_elaborated()
    ensures { JudgedRunsElaborate }
{}
