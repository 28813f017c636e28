//! Rows, computed: types and cases whose answers are known.
ghost use Rattle.std.specs.Prelude.{◌≡◌};
ghost use Rattle.pattern_coverage.specs.Cover.{Tells};
ghost use Rattle.pattern_coverage.specs.Rows.{answers, edges, rows, sample_has, sample_head, wanted, wanted_edges};

/// Which of the types have values, what of each is missed, and where the literals of a type begin and end.
pub fn coverage_is_as_wanted()
    ensures values { Tells sample_head sample_has }
    ensures answers { answers rows ≡ wanted rows }
    ensures edges { edges ≡ wanted_edges }
{}
