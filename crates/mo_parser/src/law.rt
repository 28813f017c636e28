//! What the grammar leaves no choice in.
ghost use Rattle.mo_parser.specs.Answers.{OneTree};

/// A law, and no step of the parser: two trees that spell the same tokens, their names and texts at the same places, are
/// equal, but for the places of their other parts.
pub fn one_tree()
    ensures { OneTree }
{}
