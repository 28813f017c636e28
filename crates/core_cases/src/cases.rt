//! Cases.
ghost use Rattle.std.specs.Prelude.{◌≡◌, ◌∷◌, [], length, map, IfOk, OnOk};
ghost use Rattle.typed_tree.specs.Language as source;
ghost use Rattle.typed_tree.specs.View as view;
ghost use Rattle.typed_tree.specs.View.{case_view, expression};
ghost use Rattle.core_ir.specs.Expressions as tree;
ghost use Rattle.elaboration.specs.Elaboration as elaboration;
ghost use Rattle.elaboration.specs.Scopes as scopes;
ghost use Rattle.core_parts.specs.Elaborates.{Elaborates};
ghost use Rattle.core_parts.specs.Making.{IsMade, case_tried, cases_under};

use core_forms::{bind_nearest, break_with, labelled};
use core_layers::{Fails, around, let_in};
use core_parts::{Groups, Made, Part, Parts, failure, matched, under_value};
use core_scopes::Scope;
use mo_syntax::Place;
use typed_tree::{Case, TypedExpression};

/// A `switch` on a value.
pub fn switch<F: Fn(&mut Scope, &mut Groups, Part<'_>) -> Made>(
    parts: &Parts<F>,
    scope: &mut Scope,
    groups: &mut Groups,
    place: Place,
    of: &TypedExpression,
    cases: &[Case],
) -> Made
    requires { Elaborates parts.now.depth (F.pre parts.now.elaborate) (F.post parts.now.elaborate) }
    ensures made { IfOk result (λ made. IsMade (elaboration.elaborate scope.old (length groups.old) (source.Switch (expression of.now) (view.cases (map case_view cases.now)))) groups.old groups.new made) }
    ensures scope { OnOk result (scope.new ≡ scope.old) }
{
    let value = parts.part(scope, groups, of)?;
    let rest = under_value_of(parts, scope, groups, place, cases)?;
    let_in(parts.alloc, place, value, rest)
}

// What stands under the value.
fn under_value_of<F: Fn(&mut Scope, &mut Groups, Part<'_>) -> Made>(
    parts: &Parts<F>,
    scope: &mut Scope,
    groups: &mut Groups,
    place: Place,
    cases: &[Case],
) -> Made
    requires { Elaborates parts.now.depth (F.pre parts.now.elaborate) (F.post parts.now.elaborate) }
    ensures made { IfOk result (λ made. IsMade (cases_under scope.old (length groups.old) (view.cases (map case_view cases.now))) groups.old groups.new made) }
    ensures scope { OnOk result (scope.new ≡ scope.old) }
{
    if cases.len() == 1 {
        only_case(parts, scope, groups, place, &cases[0])
    } else {
        each_case(parts, scope, groups, place, cases)
    }
}

// A case that stands around nothing else.
fn only_case<F: Fn(&mut Scope, &mut Groups, Part<'_>) -> Made>(
    parts: &Parts<F>,
    scope: &mut Scope,
    groups: &mut Groups,
    place: Place,
    case: &Case,
) -> Made
    requires { Elaborates parts.now.depth (F.pre parts.now.elaborate) (F.post parts.now.elaborate) }
    ensures made { IfOk result (λ made. IsMade (cases_under scope.old (length groups.old) (view.cases (case_view case.now ∷ []))) groups.old groups.new made) }
    ensures scope { OnOk result (scope.new ≡ scope.old) }
{
    let mark = scope.mark();
    let checks = bind_nearest(parts.alloc, &case.pattern, Vec::new(parts.alloc), scope)?;
    let body = parts.part(scope, groups, &case.body)?;
    scope.back(mark);
    around(parts.alloc, place, checks, Fails::Traps, body)
}

// Cases one after another: one that does not match gives `()`, and one that matches leaves the label.
fn each_case<F: Fn(&mut Scope, &mut Groups, Part<'_>) -> Made>(
    parts: &Parts<F>,
    scope: &mut Scope,
    groups: &mut Groups,
    place: Place,
    cases: &[Case],
) -> Made
    requires { Elaborates parts.now.depth (F.pre parts.now.elaborate) (F.post parts.now.elaborate) }
    ensures made { IfOk result (λ made. IsMade (elaboration.changed tree.Label (elaboration.elaborate_cases scope.old.names (scopes.inside (scopes.beside 1 scope.old)) (length groups.old) (view.cases (map case_view cases.now)))) groups.old groups.new made) }
    ensures scope { OnOk result (scope.new ≡ scope.old) }
{
    let mark = scope.mark();
    let level = scope.names();
    scope.go_beside(1)?;
    scope.go_inside()?;
    let mut layers = Vec::new(parts.alloc);
    for case in cases {
        let tried = one_case(parts, scope, groups, place, case, level)?;
        layers = under_value(layers, tried)?;
        scope.go_beside(1)?;
    }
    scope.back(mark);
    let end = failure(parts.alloc)?;
    let tries = around(parts.alloc, place, layers, Fails::Traps, end)?;
    labelled(parts.alloc, place, tries)
}

// A case on the value of this level.
fn one_case<F: Fn(&mut Scope, &mut Groups, Part<'_>) -> Made>(
    parts: &Parts<F>,
    scope: &mut Scope,
    groups: &mut Groups,
    place: Place,
    case: &Case,
    level: u32,
) -> Made
    requires { Elaborates parts.now.depth (F.pre parts.now.elaborate) (F.post parts.now.elaborate) }
    ensures made { IfOk result (λ made. IsMade (case_tried level scope.old (length groups.old) (case_view case.now).pattern (case_view case.now).body) groups.old groups.new made) }
    ensures scope { OnOk result (scope.new ≡ scope.old) }
{
    let mark = scope.mark();
    let checks = matched(parts.alloc, &case.pattern, level, scope)?;
    let body = parts.part(scope, groups, &case.body)?;
    scope.back(mark);
    let leaves = break_with(parts.alloc, body)?;
    around(parts.alloc, place, checks, Fails::GivesUnit, leaves)
}
