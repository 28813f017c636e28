//! Graphs of the types of programs.
ghost use Rattle.graph_laws.specs.Laws.{GraphsAreKept, GraphsAreLawful};

/// The graph that the checker keeps has the types that it met and those that they reach, each under its number, and no others.
pub fn graphs_are_kept()
    ensures { GraphsAreKept }
{}

/// Such a graph is lawful where the types are: Motoko language manual, section "Well-formed types".
pub fn graphs_are_lawful()
    ensures { GraphsAreLawful }
{}
