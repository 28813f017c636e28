//! Ends of starts.
ghost use Rattle.std.specs.Prelude.{◌≡◌, ◌++◌, ◌∷◌, [], ℕ, List, Some, length, IfOk, OnOk};
ghost use Rattle.core_ir.specs.Expressions as tree;
ghost use Rattle.core_ir.specs.View.{core_body, expression as core_expression};
ghost use Rattle.elaboration.specs.Checks.{locals};
ghost use Rattle.elaboration.specs.Members as members;
ghost use Rattle.elaboration.specs.Programs as programs;
ghost use Rattle.elaboration.specs.Scopes as scopes;
ghost use Rattle.core_parts.specs.Making.{Added, IsMade};
ghost use Rattle.core_hooks.specs.Hooks.{hook_view, on_upgrade, optional_hook};

use core_expressions::body;
use core_forms::if_true;
use core_ir::{CoreBody, Expression, Goal, Group};
use core_layers::{Fails, around, let_in, one, unit};
use core_members::add_group;
use core_parts::{Groups, Made, grouped, one_more};
use core_places::{add_unknown, values};
use core_scopes::{Scope, name_at};
use mo_num::{Memory, Sequence};
use mo_syntax::Place;
use std::alloc::Global;
use typed_tree::Function;

// The nearest function is called where the outermost name is true.
#[tactic(auto, unfolding(core_ir::specs::View::expression, core_ir::specs::View::goal))]
fn called_on_upgrade(alloc: Global, place: Place, names: u32) -> Made
    ensures { IfOk result (λ made. core_expression made ≡ on_upgrade names) }
{
    let calls = Expression::Do(Goal::Call, one(alloc, Expression::Name(0))?);
    if_true(alloc, place, name_at(names, 0), calls, unit(alloc)?)
}

// The functions of this group around the call of the first one on an upgrade, and the values.
fn behind_call(
    alloc: Global,
    place: Place,
    number: u32,
    calls: Expression,
    given: Expression,
) -> Made
    ensures { IfOk result (λ made. core_expression made ≡ tree.Functions number (members.let_in (core_expression calls) (core_expression given))) }
{
    let rest = let_in(alloc, place, calls, given)?;
    let layers = grouped(Vec::new(alloc), number)?;
    around(alloc, place, layers, Fails::Traps, rest)
}

// A group of one body, which sees so many names.
fn add_one(alloc: Global, sees: u32, body: CoreBody, groups: &mut Groups) -> Result<u32, Memory>
    ensures number { IfOk result (λ number. number ≡ length groups.old) }
    ensures added { OnOk result (Added (record { sees = sees; bodies = core_body body ∷ [] } ∷ []) groups.old groups.new) }
{
    let mut bodies = Sequence::new(alloc);
    bodies.push(body)?;
    let number = add_group(groups, Group { sees, bodies })?;
    Ok(number)
}

// The hook after an upgrade, which is one of so many functions, and then the values of so many names.
fn behind_hook(
    alloc: Global,
    scope: &mut Scope,
    groups: &mut Groups,
    declared: u32,
    functions: u32,
    hook: &Function,
) -> Made
    ensures { IfOk result (λ made. (levels : List ℕ) (others : List scopes.Place) → scope.old.places ≡ locals levels ++ others → length levels ≡ declared
        → IsMade (programs.start_end scope.old (length groups.old) functions (locals levels) (Some (hook_view hook.now))) groups.old groups.new made) }
{
    let place = hook.body.form.place();
    let sees = scope.names();
    let mark = scope.mark();
    add_unknown(scope, functions)?;
    scope.go_beside(1)?;
    let body = body(alloc, scope, groups, hook)?;
    scope.back(mark);
    let number = add_one(alloc, sees, body, groups)?;
    let calls = called_on_upgrade(alloc, place, one_more(sees)?)?;
    scope.go_beside(2)?;
    let given = values(alloc, scope, declared)?;
    behind_call(alloc, place, number, calls, given)
}

/// What a start ends with: the hook where this is an upgrade, if there is one, and then the values of so many names.
pub fn start_end(
    alloc: Global,
    scope: &mut Scope,
    groups: &mut Groups,
    declared: u32,
    functions: u32,
    hook: &Option<Function>,
) -> Made
    ensures { IfOk result (λ made. (levels : List ℕ) (others : List scopes.Place) → scope.old.places ≡ locals levels ++ others → length levels ≡ declared
        → IsMade (programs.start_end scope.old (length groups.old) functions (locals levels) (optional_hook hook.now)) groups.old groups.new made) }
{
    match hook {
        Some(written) => behind_hook(alloc, scope, groups, declared, functions, written),
        None => values(alloc, scope, declared),
    }
}
