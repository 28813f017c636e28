//! Laws of values that belong together.
ghost use Rattle.std.specs.Prelude.{List};
ghost use Rattle.core_ir.specs.Values.{Value};
ghost use Rattle.elaboration_values.specs.Belonging.{Known, MessagesBelong, NamesExtend, OperationsBelong, PatternsBelong, ValuesStay};

/// An operation gives values that belong together, or traps with the same text, at the same cost.
pub fn operations_belong()
    ensures { (known : List Known) → OperationsBelong known }
{}

/// A pattern matches both or neither, with values that belong together, at the same weight.
pub fn patterns_belong()
    ensures { (known : List Known) → PatternsBelong known }
{}

/// Where further groups are made, values belong together still.
pub fn values_stay()
    ensures { ValuesStay }
{}

/// The names of a pattern stand for values that belong together, and those around it for what they stood for.
pub fn names_belong()
    ensures { (known : List Known) (globals : List Value) → NamesExtend known globals }
{}

/// Values go into messages alike, weigh the same, and have as many levels.
pub fn messages_belong()
    ensures { (known : List Known) → MessagesBelong known }
{}
