//! Names that stand behind patterns.
ghost use Rattle.std.specs.Prelude.{◌≡◌, ◌-◌, suc, IfOk, OnOk};
ghost use Rattle.core_ir.specs.Expressions.{Exp};
ghost use Rattle.core_ir.specs.declared.primitive.Primitive.TheVariants as primitive;
ghost use Rattle.core_ir.specs.View.{expression};
ghost use Rattle.typed_tree.specs.PatternView.{pattern, patterns};
ghost use Rattle.elaboration.specs.Checks as checks;
ghost use Rattle.elaboration.specs.Elaboration as elaboration;
ghost use Rattle.elaboration.specs.Members as members;
ghost use Rattle.elaboration.specs.Scopes as scopes;
ghost use Rattle.core_layers.specs.Layers.{layered};

use core_ir::{Binding, Expression, Primitive};
use core_layers::{Checked, Layer, Source, add_parameters, add_pattern, does, one};
use core_scopes::Scope;
use mo_num::Memory;
use std::alloc::Global;
use typed_tree::TypedPattern;

// One name more. There are never so many that their number is none of 32 bits.
fn one_more(names: u32) -> Result<u32, Memory>
    ensures { IfOk result (λ more. more ≡ suc names) }
{
    match names.checked_add(1) {
        Some(more) => Ok(more),
        None => Err(Memory),
    }
}

/// A pattern on the nearest name, which Core alone has yet: its checks are further layers, and the scope is that behind them.
pub fn bind_nearest(
    alloc: Global,
    typed: &TypedPattern,
    layers: Vec<Layer>,
    scope: &mut Scope,
) -> Result<Vec<Layer>, Memory>
    ensures checks { IfOk result (λ made. (fails e : Exp) → layered made.items fails e ≡ layered layers.items fails (checks.around_all (elaboration.on_nearest (pattern typed.now) scope.old).checks fails e)) }
    ensures scope { OnOk result (scope.new ≡ checks.behind (elaboration.on_nearest (pattern typed.now) scope.old) scope.old) }
{
    let level = scope.names();
    let mut checked = Checked {
        layers,
        names: one_more(level)?,
        bound: Vec::new(alloc),
    };
    add_pattern(alloc, typed, Source::Named(level), &mut checked)?;
    let Checked {
        layers,
        names,
        bound,
    } = checked;
    scope.go_behind(bound.as_slice(), names)?;
    Ok(layers)
}

/// Patterns on the parameters of a function, which Core alone has yet, the first one on the nearest name.
pub fn bind_parameters(
    alloc: Global,
    parameters: &[TypedPattern],
    scope: &mut Scope,
) -> Result<Vec<Layer>, Memory>
    ensures checks { IfOk result (λ made. (fails e : Exp) → layered made.items fails e ≡ checks.around_all (checks.check_all (patterns parameters.now) (scope.old.names - 1) scope.old.names).checks fails e) }
    ensures scope { OnOk result (scope.new ≡ checks.behind (checks.check_all (patterns parameters.now) (scope.old.names - 1) scope.old.names) scope.old) }
{
    let names = scope.names();
    let mut checked = Checked::new(alloc, names);
    add_parameters(alloc, parameters, names.saturating_sub(1), &mut checked)?;
    let Checked {
        layers,
        names,
        bound,
    } = checked;
    scope.go_behind(bound.as_slice(), names)?;
    Ok(layers)
}

/// `let p = e`
pub fn add_let(
    alloc: Global,
    typed: &TypedPattern,
    value: Expression,
    layers: Vec<Layer>,
    scope: &mut Scope,
) -> Result<Vec<Layer>, Memory>
    ensures checks { IfOk result (λ made. (fails e : Exp) → layered made.items fails e ≡ layered layers.items fails (members.let_in (expression value) (checks.around_all (elaboration.on_nearest (pattern typed.now) scope.old).checks fails e))) }
    ensures scope { OnOk result (scope.new ≡ checks.behind (elaboration.on_nearest (pattern typed.now) scope.old) scope.old) }
{
    let mut layers = layers;
    layers.push(Layer::Binding(Binding::Value(value)))?;
    let layers = bind_nearest(alloc, typed, layers, scope)?;
    Ok(layers)
}

/// `var x = e`
pub fn add_variable(
    alloc: Global,
    value: Expression,
    layers: Vec<Layer>,
    scope: &mut Scope,
) -> Result<Vec<Layer>, Memory>
    ensures cell { IfOk result (λ made. (fails e : Exp) → layered made.items fails e ≡ layered layers.items fails (members.let_in (members.does primitive.New (scopes.one (expression value))) e)) }
    ensures scope { OnOk result (scope.new ≡ scopes.under 1 scope.old) }
{
    let mut layers = layers;
    let cell = does(alloc, Primitive::New, one(alloc, value)?)?;
    layers.push(Layer::Binding(Binding::Value(cell)))?;
    scope.go_under(1)?;
    Ok(layers)
}
