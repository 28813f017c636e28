//! Functions.
ghost use Rattle.std.specs.Prelude.{◌≡◌, length, map, IfOk, OnOk};
ghost use Rattle.typed_tree.specs.View.{function, group};
ghost use Rattle.elaboration.specs.Elaboration.{elaborate_functions};
ghost use Rattle.core_parts.specs.Elaborates.{Elaborates};
ghost use Rattle.core_parts.specs.Making.{Added, BodiesMade, BodyMade, Grouped, Surrounds, begun, elaborate_body};

use core_forms::bind_parameters;
use core_ir::{CoreBody, Group};
use core_layers::{Fails, Layer, around};
use core_members::add_group;
use core_parts::{Groups, Made, Part, Parts, amount, grouped};
use core_scopes::Scope;
use mo_num::{Memory, Sequence};
use typed_tree::Function;

/// The body of a function of a group that is in scope.
pub fn body<F: Fn(&mut Scope, &mut Groups, Part<'_>) -> Made>(
    parts: &Parts<F>,
    scope: &mut Scope,
    groups: &mut Groups,
    written: &Function,
) -> Result<CoreBody, Memory>
    requires { Elaborates parts.now.depth (F.pre parts.now.elaborate) (F.post parts.now.elaborate) }
    ensures made { IfOk result (λ made. BodyMade (elaborate_body scope.old (length groups.old) (function written.now)) groups.old groups.new made) }
    ensures scope { OnOk result (scope.new ≡ scope.old) }
{
    let place = written.body.form.place();
    let parameters = amount(written.parameters.len())?;
    let mark = scope.mark();
    let labels = scope.labels();
    let exits = scope.enter_body(parameters)?;
    let checks = bind_parameters(parts.alloc, written.parameters.as_slice(), scope)?;
    let inner = parts.part(scope, groups, &written.body)?;
    scope.leave_body(exits, labels);
    scope.back(mark);
    let expression = around(parts.alloc, place, checks, Fails::Traps, inner)?;
    Ok(CoreBody {
        parameters,
        nodes: written.nodes,
        expression,
    })
}

// The bodies of a group that is in scope.
fn bodies<F: Fn(&mut Scope, &mut Groups, Part<'_>) -> Made>(
    parts: &Parts<F>,
    scope: &mut Scope,
    groups: &mut Groups,
    functions: &[Function],
) -> Result<Sequence<CoreBody>, Memory>
    requires { Elaborates parts.now.depth (F.pre parts.now.elaborate) (F.post parts.now.elaborate) }
    ensures made { IfOk result (λ made. BodiesMade (elaborate_functions scope.old (length groups.old) (group (map function functions.now))) groups.old groups.new made) }
    ensures scope { OnOk result (scope.new ≡ scope.old) }
{
    let mut made = Sequence::new(parts.alloc);
    for one in functions {
        let value = body(parts, scope, groups, one)?;
        made.push(value)?;
    }
    Ok(made)
}

/// A group of functions as a further layer. Their values are the nearest names then.
pub(crate) fn add_functions<F: Fn(&mut Scope, &mut Groups, Part<'_>) -> Made>(
    parts: &Parts<F>,
    scope: &mut Scope,
    groups: &mut Groups,
    functions: &[Function],
    layers: Vec<Layer>,
) -> Result<Vec<Layer>, Memory>
    requires { Elaborates parts.now.depth (F.pre parts.now.elaborate) (F.post parts.now.elaborate) }
    ensures layers { IfOk result (λ made. Surrounds layers.items (begun (Grouped (group (map function functions.now))) scope.old (length groups.old)).start made.items) }
    ensures groups { OnOk result (Added (begun (Grouped (group (map function functions.now))) scope.old (length groups.old)).groups groups.old groups.new) }
    ensures scope { OnOk result (scope.new ≡ (begun (Grouped (group (map function functions.now))) scope.old (length groups.old)).scope) }
{
    let sees = scope.names();
    let count = amount(functions.len())?;
    scope.go_under(count)?;
    let bodies = bodies(parts, scope, groups, functions)?;
    let number = add_group(groups, Group { sees, bodies })?;
    let made = grouped(layers, number)?;
    Ok(made)
}
