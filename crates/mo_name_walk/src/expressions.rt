//! The names in expressions and declarations.
ghost use Rattle.std.specs.Prelude.{◌≡◌, ◌++◌, OnOk};
ghost use Rattle.mo_bindings.specs.ExpressionNames.{in_expression, in_declaration};
ghost use Rattle.mo_name_walk.specs.PartNames.{in_part};

use crate::layers::Layers;
use mo_bindings::Part;
use mo_num::Memory;
use mo_pattern_names::Walk;
use mo_scopes::{Findings, Scope};
use mo_syntax::{Declaration, Expression};

// A part of at most so many levels. One of more levels than there are addresses is none that memory holds.
fn walk_part(
    walk: Walk,
    depth: usize,
    part: Part<'_>,
    scope: &mut Scope,
    found: &mut Findings,
) -> Result<(), Memory>
    ensures found { OnOk result (found.new ≡ found.old ++ in_part part.entry scope.old) }
    ensures kept { OnOk result (scope.new ≡ scope.old) }
{
    if depth == 0 {
        return Err(Memory);
    }
    let layers = Layers {
        walk,
        depth: depth - 1,
        parts: walk_part,
    };
    match part {
        Part::Expression(a) => layers.expression(a, scope, found),
        Part::Declaration(declaration) => layers.declaration(declaration, scope, found),
    }
}

/// Adds what is found in an expression. The scope is as before.
pub fn find_in_expression(
    walk: Walk,
    a: &Expression,
    scope: &mut Scope,
    found: &mut Findings,
) -> Result<(), Memory>
    ensures found { OnOk result (found.new ≡ found.old ++ (in_expression a.now).finds scope.old) }
    ensures kept { OnOk result (scope.new ≡ scope.old) }
{
    walk_part(walk, usize::MAX, Part::Expression(a), scope, found)
}

/// Adds what is found in a declaration. The scope, which has the names of its list, is as before.
pub fn find_in_declaration(
    walk: Walk,
    declaration: &Declaration,
    scope: &mut Scope,
    found: &mut Findings,
) -> Result<(), Memory>
    ensures found { OnOk result (found.new ≡ found.old ++ (in_declaration declaration.now).finds scope.old) }
    ensures kept { OnOk result (scope.new ≡ scope.old) }
{
    walk_part(
        walk,
        usize::MAX,
        Part::Declaration(declaration),
        scope,
        found,
    )
}
