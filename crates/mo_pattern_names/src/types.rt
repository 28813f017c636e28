//! The names in types.
ghost use Rattle.std.specs.Prelude.{◌≡◌, ◌++◌, OnOk, map, option_map};
ghost use Rattle.mo_scopes.specs.Findings.{each_within, within};
ghost use Rattle.mo_pattern_names.specs.TypeNames.{in_type};

use crate::type_layers::TypeLayers;
use crate::walk::Walk;
use mo_num::Memory;
use mo_scopes::{Findings, Scope};
use mo_syntax::{Items, Node, TypeExpression};

// A type of at most so many levels. One of more levels than there are addresses is none that memory holds.
fn walk_type(
    walk: Walk,
    depth: usize,
    a: &TypeExpression,
    scope: &Scope,
    found: &mut Findings,
) -> Result<(), Memory>
    ensures { OnOk result (found.new ≡ found.old ++ in_type a.now scope.now) }
{
    if depth == 0 {
        return Err(Memory);
    }
    let layers = TypeLayers {
        walk,
        depth: depth - 1,
        inner: walk_type,
    };
    layers.type_expression(a, scope, found)
}

impl Walk {
    /// Adds what is found in a type.
    pub fn type_expression(
        self,
        a: &TypeExpression,
        scope: &Scope,
        found: &mut Findings,
    ) -> Result<(), Memory>
        ensures { OnOk result (found.new ≡ found.old ++ in_type a.now scope.now) }
    {
        walk_type(self, usize::MAX, a, scope, found)
    }

    /// Adds what is found in the types behind a name, where some stand there.
    pub fn type_arguments(
        self,
        arguments: &Option<Items<Node<TypeExpression>>>,
        scope: &Scope,
        found: &mut Findings,
    ) -> Result<(), Memory>
        ensures { OnOk result (found.new ≡ found.old ++ each_within (option_map (map in_type) arguments.now) scope.now) }
    {
        let layers = TypeLayers {
            walk: self,
            depth: usize::MAX,
            inner: walk_type,
        };
        layers.arguments(arguments, scope, found)
    }

    /// Adds what is found in an annotation, where one stands there.
    pub fn annotation(
        self,
        kind: &Option<Node<TypeExpression>>,
        scope: &Scope,
        found: &mut Findings,
    ) -> Result<(), Memory>
        ensures { OnOk result (found.new ≡ found.old ++ within (option_map in_type kind.now) scope.now) }
    {
        match kind {
            None => Ok(()),
            Some(kind) => self.type_expression(kind.get(), scope, found),
        }
    }
}
