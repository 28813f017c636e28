//! The translation as a law: the function does nothing, and its contract is a theorem.
ghost use Rattle.wasm_emit.specs.Compiled.{EmittedModulesKeep};

/// A formed low module is translated to a valid module that has a spelling and the same executions.
pub fn emitted_modules_keep()
    ensures { EmittedModulesKeep }
{}
