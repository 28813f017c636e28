//! Declarations and blocks.
ghost use Rattle.std.specs.Prelude.{◌≡◌, length, map, IfOk, OnOk};
ghost use Rattle.typed_tree.specs.View as view;
ghost use Rattle.typed_tree.specs.View.{declaration, expression};
ghost use Rattle.elaboration.specs.Elaboration.{elaborate};
ghost use Rattle.core_parts.specs.Elaborates.{Elaborates};
ghost use Rattle.core_parts.specs.Making.{Declares, IsMade};

use crate::functions::add_functions;
use crate::kept::kept_chosen;
use core_forms::{add_let, add_variable};
use core_layers::{Fails, Layer, around};
use core_parts::{Groups, Made, Part, Parts, under_value};
use core_scopes::Scope;
use mo_num::Memory;
use mo_syntax::Place;
use typed_tree::{Step, TypedExpression};

/// Declarations, and the value.
pub fn block<F: Fn(&mut Scope, &mut Groups, Part<'_>) -> Made>(
    parts: &Parts<F>,
    scope: &mut Scope,
    groups: &mut Groups,
    place: Place,
    steps: &[Step],
    value: &TypedExpression,
) -> Made
    requires { Elaborates parts.now.depth (F.pre parts.now.elaborate) (F.post parts.now.elaborate) }
    ensures made { IfOk result (λ made. IsMade (elaborate scope.old (length groups.old) (view.block (map declaration steps.now) (expression value.now))) groups.old groups.new made) }
    ensures scope { OnOk result (scope.new ≡ scope.old) }
{
    let mark = scope.mark();
    let mut layers = Vec::new(parts.alloc);
    for step in steps {
        layers = add_step(parts, scope, groups, step, layers)?;
    }
    let last = parts.part(scope, groups, value)?;
    scope.back(mark);
    around(parts.alloc, place, layers, Fails::Traps, last)
}

/// A declaration as further layers. The scope is that of what follows then.
pub fn add_step<F: Fn(&mut Scope, &mut Groups, Part<'_>) -> Made>(
    parts: &Parts<F>,
    scope: &mut Scope,
    groups: &mut Groups,
    step: &Step,
    layers: Vec<Layer>,
) -> Result<Vec<Layer>, Memory>
    requires { Elaborates parts.now.depth (F.pre parts.now.elaborate) (F.post parts.now.elaborate) }
    ensures { IfOk result (λ made. Declares (declaration step.now) scope.old scope.new groups.old groups.new layers.items made.items) }
{
    match step {
        Step::Let(pattern, value) => {
            let value = parts.part(scope, groups, value)?;
            let made = add_let(parts.alloc, pattern, value, layers, scope)?;
            Ok(made)
        }
        Step::Var(value) => {
            let value = parts.part(scope, groups, value)?;
            let made = add_variable(parts.alloc, value, layers, scope)?;
            Ok(made)
        }
        Step::Stable(kept, value) => {
            let value = kept_or(parts, scope, groups, *kept, value)?;
            let made = add_variable(parts.alloc, value, layers, scope)?;
            Ok(made)
        }
        Step::Functions(functions) => {
            let made = add_functions(parts, scope, groups, functions.as_slice(), layers)?;
            Ok(made)
        }
        Step::Evaluate(value) => {
            let value = parts.part(scope, groups, value)?;
            scope.go_beside(1)?;
            let made = under_value(layers, value)?;
            Ok(made)
        }
    }
}

// What was kept of a stable variable under this name, or else the value.
fn kept_or<F: Fn(&mut Scope, &mut Groups, Part<'_>) -> Made>(
    parts: &Parts<F>,
    scope: &mut Scope,
    groups: &mut Groups,
    kept: u32,
    value: &TypedExpression,
) -> Made
    requires { Elaborates parts.now.depth (F.pre parts.now.elaborate) (F.post parts.now.elaborate) }
    ensures made { IfOk result (λ made. IsMade (elaborate scope.old (length groups.old) (view.kept_or kept (expression value.now))) groups.old groups.new made) }
    ensures scope { OnOk result (scope.new ≡ scope.old) }
{
    let mark = scope.mark();
    let level = scope.names();
    let kept = scope.read_name(kept)?;
    scope.go_beside(1)?;
    scope.go_inside()?;
    let inner = parts.part(scope, groups, value)?;
    scope.back(mark);
    kept_chosen(parts.alloc, value.form.place(), kept, inner, level)
}
