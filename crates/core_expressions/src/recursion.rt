//! The recursion over expressions.
ghost use Rattle.std.specs.Prelude.{◌≡◌, length, IfOk, OnOk};
ghost use Rattle.typed_tree.specs.View as view;
ghost use Rattle.elaboration.specs.Elaboration as elaboration;
ghost use Rattle.core_parts.specs.Elaborates.{Elaborates};
ghost use Rattle.core_parts.specs.Making.{BodyMade, Declares, IsMade, elaborate_body};

use crate::forms::by_form;
use core_blocks::{add_step, body as body_by};
use core_ir::CoreBody;
use core_layers::Layer;
use core_parts::{Groups, Made, Part, Parts};
use core_scopes::Scope;
use mo_num::Memory;
use std::alloc::Global;
use typed_tree::{Function, Step, TypedExpression};

/// The most levels of an expression. The parser gives trees with room for at most 2,000 constructs around each token, and each is
/// written out to a few levels, so accepted sources have fewer.
const MOST_LEVELS: u32 = 20_000;

/// An expression, by the elaboration of its parts, which have at most so many levels.
pub fn by_parts<F: Fn(&mut Scope, &mut Groups, Part<'_>) -> Made + Copy>(
    scope: &mut Scope,
    groups: &mut Groups,
    part: Part<'_>,
    depth: u32,
    elaborate: F,
) -> Made
    requires { Elaborates depth (F.pre elaborate) (F.post elaborate) }
    ensures made { IfOk result (λ made. IsMade (elaboration.elaborate scope.old (length groups.old) (view.expression part.entry.expression.now)) groups.old groups.new made) }
    ensures scope { OnOk result (scope.new ≡ scope.old) }
{
    let parts = Parts {
        alloc: part.alloc,
        depth,
        elaborate,
    };
    by_form(&parts, scope, groups, part.expression)
}

// An expression of at most so many levels. For one of more there is no memory.
fn expression_within(scope: &mut Scope, groups: &mut Groups, part: Part<'_>) -> Made
    ensures made { IfOk result (λ made. IsMade (elaboration.elaborate scope.old (length groups.old) (view.expression part.entry.expression.now)) groups.old groups.new made) }
    ensures scope { OnOk result (scope.new ≡ scope.old) }
{
    if part.depth == 0 {
        return Err(Memory);
    }
    by_parts(scope, groups, part, part.depth - 1, expression_within)
}

/// An expression in a scope, which is as before then, with the groups of functions that it makes behind those that there are: Motoko
/// language manual, section "Expressions". It recurs as deep as the expression, and the parser lets only so many levels pass.
pub fn expression(
    alloc: Global,
    scope: &mut Scope,
    groups: &mut Groups,
    typed: &TypedExpression,
) -> Made
    ensures made { IfOk result (λ made. IsMade (elaboration.elaborate scope.old (length groups.old) (view.expression typed.now)) groups.old groups.new made) }
    ensures scope { OnOk result (scope.new ≡ scope.old) }
{
    let part = Part {
        alloc,
        depth: MOST_LEVELS,
        expression: typed,
    };
    expression_within(scope, groups, part)
}

/// A declaration, by the elaboration of its parts.
pub fn declaration_by<F: Fn(&mut Scope, &mut Groups, Part<'_>) -> Made + Copy>(
    alloc: Global,
    scope: &mut Scope,
    groups: &mut Groups,
    step: &Step,
    layers: Vec<Layer>,
    elaborate: F,
) -> Result<Vec<Layer>, Memory>
    requires { Elaborates 20000 (F.pre elaborate) (F.post elaborate) }
    ensures { IfOk result (λ made. Declares (view.declaration step.now) scope.old scope.new groups.old groups.new layers.items made.items) }
{
    let parts = Parts {
        alloc,
        depth: MOST_LEVELS,
        elaborate,
    };
    add_step(&parts, scope, groups, step, layers)
}

/// A declaration as further layers, with the groups of functions that it makes. The scope is that of what follows then: Motoko
/// language manual, section "Declarations".
pub fn declaration(
    alloc: Global,
    scope: &mut Scope,
    groups: &mut Groups,
    step: &Step,
    layers: Vec<Layer>,
) -> Result<Vec<Layer>, Memory>
    ensures { IfOk result (λ made. Declares (view.declaration step.now) scope.old scope.new groups.old groups.new layers.items made.items) }
{
    declaration_by(alloc, scope, groups, step, layers, expression_within)
}

/// The body of a function, by the elaboration of its parts.
pub fn function_by<F: Fn(&mut Scope, &mut Groups, Part<'_>) -> Made + Copy>(
    alloc: Global,
    scope: &mut Scope,
    groups: &mut Groups,
    written: &Function,
    elaborate: F,
) -> Result<CoreBody, Memory>
    requires { Elaborates 20000 (F.pre elaborate) (F.post elaborate) }
    ensures made { IfOk result (λ made. BodyMade (elaborate_body scope.old (length groups.old) (view.function written.now)) groups.old groups.new made) }
    ensures scope { OnOk result (scope.new ≡ scope.old) }
{
    let parts = Parts {
        alloc,
        depth: MOST_LEVELS,
        elaborate,
    };
    body_by(&parts, scope, groups, written)
}

/// The body of a function of a group that is in scope: Motoko language manual, section "Functions".
pub fn body(
    alloc: Global,
    scope: &mut Scope,
    groups: &mut Groups,
    written: &Function,
) -> Result<CoreBody, Memory>
    ensures made { IfOk result (λ made. BodyMade (elaborate_body scope.old (length groups.old) (view.function written.now)) groups.old groups.new made) }
    ensures scope { OnOk result (scope.new ≡ scope.old) }
{
    function_by(alloc, scope, groups, written, expression_within)
}
