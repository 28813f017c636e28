//! Modules with calls, callbacks and cleanups, and one that keeps something over upgrades.
ghost use Rattle.refinement_examples.specs.CallingModule.{CallingModuleRefines};
ghost use Rattle.refinement_examples.specs.GrowingModule.{GrowingModuleRefines};
ghost use Rattle.refinement_examples.specs.WaitingModule.{WaitingModuleRefines};

/// A module that makes calls refines its program: it makes them as far as 500 are open, traps on a reply and cleans up, and takes
/// a reject, with nothing exhausted under all limits.
pub fn calling_modules_refine()
    ensures { CallingModuleRefines }
{}

/// So does a module whose method makes a call and waits: it replies when the answer comes, and at once where the call was refused.
pub fn waiting_modules_refine()
    ensures { WaitingModuleRefines }
{}

/// And a module whose method adds a page to stable memory, whose program counts the pages, over all events: it starts with the
/// pages that an upgrade kept, saves as many, and is exhausted where a page is refused.
pub fn growing_modules_refine()
    ensures { GrowingModuleRefines }
{}
