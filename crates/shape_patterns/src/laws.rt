//! Laws of the definitions.
ghost use Rattle.std.specs.Prelude.{◌≡◌, Bool, None};
ghost use Rattle.mo_types.specs.declared.node.Node.{Node};
ghost use Rattle.mo_types.specs.declared.node.TypeId.{TypeId};
ghost use Rattle.mo_values.specs.Shapes.{Shape};
ghost use Rattle.typed_tree.specs.Patterns.{matches};
ghost use Rattle.pattern_coverage.specs.Known.{Describes, Known};
ghost use Rattle.shape_patterns.specs.Stands.{shape_pattern};

/// Each value that the pattern matches has the shape for which it stands. So where no case of a `switch` matches a value of the shape, none
/// matches a value of the pattern.
pub fn patterns_stand_for_shapes<F>()
    ensures { (head : TypeId → Node TypeId) (has : TypeId → Bool) (k : Known) (t : TypeId) (v : Shape F) → (matches (shape_pattern head has k t) v ≡ None → ⊥) → Describes k v }
{}
