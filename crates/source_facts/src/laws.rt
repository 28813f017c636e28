//! Expressions as the rules on names leave them.
ghost use Rattle.source_facts.specs.Laws.{ExpressionsAreSources};

/// An expression in which no rule on names is broken, nothing is used before it is defined, and characters are Unicode scalar values, is all that is asked of a
/// source that is to be written out to a typed tree.
pub fn expressions_are_sources()
    ensures { ExpressionsAreSources }
{}
