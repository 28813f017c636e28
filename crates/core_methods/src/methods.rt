//! Methods.
ghost use Rattle.std.specs.Prelude.{◌≡◌, length, map, IfOk, OnOk};
ghost use Rattle.typed_tree.specs.View.{group};
ghost use Rattle.elaboration.specs.Elaboration.{elaborate_functions};
ghost use Rattle.core_parts.specs.Making.{BodiesMade, BodyMade, elaborate_body};
ghost use Rattle.core_methods.specs.Behind.{method_function};

use crate::contexts::bind_context;
use core_expressions::expression;
use core_ir::CoreBody;
use core_layers::{Fails, around};
use core_parts::{Groups, amount, one_more};
use core_scopes::Scope;
use mo_num::{Memory, Sequence};
use std::alloc::Global;
use typed_tree::Method;

// The body of a method, which takes the context of the call before its parameters.
fn method_body(
    alloc: Global,
    scope: &mut Scope,
    groups: &mut Groups,
    method: &Method,
) -> Result<CoreBody, Memory>
    ensures made { IfOk result (λ made. BodyMade (elaborate_body scope.old (length groups.old) (method_function method.now)) groups.old groups.new made) }
    ensures scope { OnOk result (scope.new ≡ scope.old) }
{
    let place = method.function.body.form.place();
    let count = amount(method.function.parameters.len())?;
    let parameters = one_more(count)?;
    let mark = scope.mark();
    let labels = scope.labels();
    let exits = scope.enter_body(parameters)?;
    let checks = bind_context(
        alloc,
        &method.context,
        method.function.parameters.as_slice(),
        scope,
    )?;
    let inner = expression(alloc, scope, groups, &method.function.body)?;
    scope.leave_body(exits, labels);
    scope.back(mark);
    let expression = around(alloc, place, checks, Fails::Traps, inner)?;
    Ok(CoreBody {
        parameters,
        nodes: method.function.nodes,
        expression,
    })
}

/// The bodies of methods: Motoko language manual, section "Shared functions".
pub fn method_bodies(
    alloc: Global,
    scope: &mut Scope,
    groups: &mut Groups,
    methods: &[Method],
) -> Result<Sequence<CoreBody>, Memory>
    ensures made { IfOk result (λ made. BodiesMade (elaborate_functions scope.old (length groups.old) (group (map method_function methods.now))) groups.old groups.new made) }
    ensures scope { OnOk result (scope.new ≡ scope.old) }
{
    let mut made = Sequence::new(alloc);
    for one in methods {
        let value = method_body(alloc, scope, groups, one)?;
        made.push(value)?;
    }
    Ok(made)
}
