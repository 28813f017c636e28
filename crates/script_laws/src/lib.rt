//! Laws of scripts. Each function does nothing: its contract is a theorem about the definitions that reading cites.
#![tactic(auto)]

ghost use Rattle.script_laws.specs.Fault.{HasOneFault};

/// A text has one fault at most, want of memory apart.
pub fn fault_law()
    ensures { HasOneFault }
{}
