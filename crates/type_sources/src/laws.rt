//! What the front end shows of types and patterns.
ghost use Rattle.type_sources.specs.Laws.{PatternsAreSources, TypesAreSources};

/// A type in which no rule on names is broken is one as the rules' laws ask.
pub fn types_are_sources()
    ensures { TypesAreSources }
{}

/// So are the types in a pattern.
pub fn patterns_are_sources()
    ensures { PatternsAreSources }
{}
