//! Saves.
ghost use Rattle.std.specs.Prelude.{◌≡◌, ◌+◌, List, length, IfOk, OnOk};
ghost use Rattle.core_ir.specs.View.{expression as core_expression};
ghost use Rattle.elaboration.specs.Programs as programs;
ghost use Rattle.elaboration.specs.Scopes as scopes;
ghost use Rattle.core_parts.specs.Making.{BodyMade, IsMade};
ghost use Rattle.core_hooks.specs.Hooks.{cells_behind, held_at, hook_view, optional_hook, saved};

use core_expressions::expression;
use core_forms::{bind_parameters, labelled};
use core_ir::{CoreBody, Expression, Primitive};
use core_layers::{Fails, around, does, let_in, one, operation};
use core_parts::{Groups, Made, amount};
use core_scopes::Scope;
use mo_num::Memory;
use mo_syntax::Items;
use mo_values::Operation;
use std::alloc::Global;
use typed_tree::{Function, StableVariable};

// What the cell of a stable variable holds, whose name stands behind so many functions.
fn held(alloc: Global, scope: &Scope, functions: u32, variable: &StableVariable) -> Made
    ensures { IfOk result (λ made. (places : List scopes.Place) → scope.now ≡ programs.outside places → core_expression made ≡ held_at places (functions + variable.now.cell)) }
{
    let Some(index) = functions.checked_add(variable.cell) else {
        return Err(Memory);
    };
    let cell = scope.read_name(index)?;
    does(alloc, Primitive::Read, one(alloc, cell)?)
}

// What the cells of the stable variables hold, as a tuple.
fn all_held(alloc: Global, scope: &Scope, functions: u32, stable: &[StableVariable]) -> Made
    ensures { IfOk result (λ made. (places : List scopes.Place) → scope.now ≡ programs.outside places → core_expression made ≡ programs.tuple (programs.held_in places (cells_behind functions stable.now))) }
{
    let mut made = Items::new(alloc);
    for variable in stable {
        let value = held(alloc, scope, functions, variable)?;
        made.push(value)?;
    }
    operation(alloc, Operation::MakeTuple, made)
}

// The hook under a label, which its returns leave.
fn hook_value(alloc: Global, scope: &mut Scope, groups: &mut Groups, hook: &Function) -> Made
    ensures made { IfOk result (λ made. (places : List scopes.Place) → scope.old ≡ programs.outside places → IsMade (programs.hook_exp scope.old (length groups.old) (hook_view hook.now)) groups.old groups.new made) }
    ensures scope { OnOk result (scope.new ≡ scope.old) }
{
    let place = hook.body.form.place();
    let mark = scope.mark();
    scope.add_label()?;
    let parameters = amount(hook.parameters.len())?;
    scope.go_beside(parameters)?;
    let checks = bind_parameters(alloc, hook.parameters.as_slice(), scope)?;
    let inner = expression(alloc, scope, groups, &hook.body)?;
    scope.back(mark);
    let inside = around(alloc, place, checks, Fails::Traps, inner)?;
    labelled(alloc, place, inside)
}

// The nodes of both. There are never so many that their number is none of 32 bits.
fn both(kept: u32, nodes: u32) -> Result<u32, Memory>
    ensures { IfOk result (λ sum. sum ≡ kept + nodes) }
{
    match kept.checked_add(nodes) {
        Some(sum) => Ok(sum),
        None => Err(Memory),
    }
}

/// The body of a save: the hook before an upgrade, if there is one, and then what the cells of the stable variables hold, whose names
/// stand behind so many functions, with a node for each: Motoko language manual, section "Stable variables".
pub fn save_body(
    alloc: Global,
    scope: &mut Scope,
    groups: &mut Groups,
    functions: u32,
    hook: &Option<Function>,
    stable: &[StableVariable],
) -> Result<CoreBody, Memory>
    ensures { IfOk result (λ made. (places : List scopes.Place) → scope.old ≡ programs.outside places
        → BodyMade (saved (programs.save_of (length stable.now) places (length groups.old) (optional_hook hook.now) (programs.held_in places (cells_behind functions stable.now)))) groups.old groups.new made) }
{
    let kept = amount(stable.len())?;
    let cells = all_held(alloc, scope, functions, stable)?;
    match hook {
        None => Ok(CoreBody {
            parameters: 0,
            nodes: kept,
            expression: cells,
        }),
        Some(written) => {
            let nodes = both(kept, written.nodes)?;
            let value = hook_value(alloc, scope, groups, written)?;
            let expression = let_in(alloc, written.body.form.place(), value, cells)?;
            Ok(CoreBody {
                parameters: 0,
                nodes,
                expression,
            })
        }
    }
}
