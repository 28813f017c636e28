//! Rows, computed.
ghost use Rattle.std.specs.Prelude.{◌≡◌, map};
ghost use Rattle.typed_tree.specs.Examples.{counter_types};
ghost use Rattle.desugaring.specs.FormRows.{declarations, jumps, operators, written};
ghost use Rattle.desugaring.specs.Frames.{found};
ghost use Rattle.desugaring.specs.NameRows.{hidden_names};
ghost use Rattle.desugaring.specs.Rows.{Desugars, counter_source, counter_terms, written_counter};

/// The counter is written out to the typed program of the same name.
pub fn the_counter_is_written_out()
    ensures { Desugars counter_source counter_types counter_terms written_counter }
{}

/// Operators and assignments; labels, `continue`, `do ?` and `return`; functions, objects and lists of declarations.
pub fn forms_are_written_out()
    ensures operators { map (λ r. written r.from) operators ≡ map (λ r. r.to) operators }
    ensures jumps { map (λ r. written r.from) jumps ≡ map (λ r. r.to) jumps }
    ensures declarations { map (λ r. written r.from) declarations ≡ map (λ r. r.to) declarations }
{}

/// Of two names in scope that are the same, the one that hides the other is found.
pub fn hidden_names_are_not_found()
    ensures { map (λ r. (found r.frame r.name).index) hidden_names ≡ map (λ r. r.index) hidden_names }
{}
