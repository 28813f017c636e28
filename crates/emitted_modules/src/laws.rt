//! A law: the function does nothing, and its contract is a theorem.
ghost use Rattle.emitted_modules.specs.Laws.{FunctionsStand};

/// The functions of a formed program that is treated, those of its methods and that of its start stand in its low module with their code
/// and their types, those of groups in the table, too, within the stack words that their nodes pay for.
pub fn functions_stand()
    ensures { FunctionsStand }
{}
