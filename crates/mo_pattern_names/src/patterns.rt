//! The names in patterns.
ghost use Rattle.std.specs.Prelude.{◌≡◌, ◌++◌, [], OnOk, map};
ghost use Rattle.mo_pattern_names.specs.PatternNames.{in_pattern, in_pattern_field, in_parameters, bound_names, each_binder, whole};

use crate::pattern_layers::{PatternLayers, variable};
use crate::walk::Walk;
use mo_name_table::Names;
use mo_num::Memory;
use mo_scopes::{Findings, Scope, together};
use mo_syntax::{Node, Parameters, Pattern, PatternField};

// A pattern of at most so many levels. One of more levels than there are addresses is none that memory holds.
fn walk_pattern(
    walk: Walk,
    depth: usize,
    p: &Pattern,
    scope: &Scope,
    names: &mut Names,
    found: &mut Findings,
) -> Result<(), Memory>
    ensures found { OnOk result (found.new ≡ found.old ++ (in_pattern p.now).finds scope.now) }
    ensures names { OnOk result (names.new ≡ names.old ++ (in_pattern p.now).names) }
{
    if depth == 0 {
        return Err(Memory);
    }
    let layers = PatternLayers {
        walk,
        depth: depth - 1,
        inner: walk_pattern,
    };
    layers.pattern(p, scope, names, found)
}

impl Walk {
    /// Adds the names that a part of a pattern binds, and what is found in it.
    pub fn pattern(
        self,
        p: &Pattern,
        scope: &Scope,
        names: &mut Names,
        found: &mut Findings,
    ) -> Result<(), Memory>
        ensures found { OnOk result (found.new ≡ found.old ++ (in_pattern p.now).finds scope.now) }
        ensures names { OnOk result (names.new ≡ names.old ++ (in_pattern p.now).names) }
    {
        walk_pattern(self, usize::MAX, p, scope, names, found)
    }

    fn patterns(
        self,
        patterns: &[Node<Pattern>],
        scope: &Scope,
        names: &mut Names,
        found: &mut Findings,
    ) -> Result<(), Memory>
        ensures found { OnOk result (found.new ≡ found.old ++ each_binder (map in_pattern patterns.now) scope.now) }
        ensures names { OnOk result (names.new ≡ names.old ++ bound_names (map in_pattern patterns.now)) }
    {
        let layers = PatternLayers {
            walk: self,
            depth: usize::MAX,
            inner: walk_pattern,
        };
        layers.patterns(patterns, scope, names, found)
    }

    /// The same of the fields of a pattern.
    pub fn pattern_fields(
        self,
        fields: &[Node<PatternField>],
        scope: &Scope,
        names: &mut Names,
        found: &mut Findings,
    ) -> Result<(), Memory>
        ensures found { OnOk result (found.new ≡ found.old ++ each_binder (map in_pattern_field fields.now) scope.now) }
        ensures names { OnOk result (names.new ≡ names.old ++ bound_names (map in_pattern_field fields.now)) }
    {
        let layers = PatternLayers {
            walk: self,
            depth: usize::MAX,
            inner: walk_pattern,
        };
        layers.fields(fields, scope, names, found)
    }

    fn parameter_list(
        self,
        parameters: &Parameters,
        scope: &Scope,
        names: &mut Names,
        found: &mut Findings,
    ) -> Result<(), Memory>
        ensures found { OnOk result (found.new ≡ found.old ++ (in_parameters parameters.now).finds scope.now) }
        ensures names { OnOk result (names.new ≡ names.old ++ (in_parameters parameters.now).names) }
    {
        match parameters {
            Parameters::List(patterns) => self.patterns(patterns.as_slice(), scope, names, found),
            Parameters::Single(name) => variable(self.alloc, name, names, found),
        }
    }

    /// A whole pattern. Adds the names that it binds to what is empty.
    pub fn whole_pattern(
        self,
        p: &Pattern,
        scope: &Scope,
        names: &mut Names,
        found: &mut Findings,
    ) -> Result<(), Memory>
        requires { names.old ≡ [] }
        ensures found { OnOk result (found.new ≡ found.old ++ whole (in_pattern p.now) scope.now) }
        ensures names { OnOk result (names.new ≡ (in_pattern p.now).names) }
    {
        self.pattern(p, scope, names, found)?;
        together(self.alloc, names.as_slice(), found)
    }

    /// A whole list of parameters. Adds the names that it binds to what is empty.
    pub fn whole_parameters(
        self,
        parameters: &Parameters,
        scope: &Scope,
        names: &mut Names,
        found: &mut Findings,
    ) -> Result<(), Memory>
        requires { names.old ≡ [] }
        ensures found { OnOk result (found.new ≡ found.old ++ whole (in_parameters parameters.now) scope.now) }
        ensures names { OnOk result (names.new ≡ (in_parameters parameters.now).names) }
    {
        self.parameter_list(parameters, scope, names, found)?;
        together(self.alloc, names.as_slice(), found)
    }
}
