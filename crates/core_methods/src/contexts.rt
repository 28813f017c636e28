//! Parameters behind the context of a call.
ghost use Rattle.std.specs.Prelude.{◌≡◌, ◌-◌, IfOk, OnOk};
ghost use Rattle.core_ir.specs.Expressions.{Exp};
ghost use Rattle.typed_tree.specs.Patterns.{APat};
ghost use Rattle.typed_tree.specs.PatternView.{patterns};
ghost use Rattle.typed_tree.specs.ProgramView.{context_pattern};
ghost use Rattle.elaboration.specs.Checks as checks;
ghost use Rattle.elaboration.specs.Checks.{Named};
ghost use Rattle.core_layers.specs.Layers.{Adds, layered};

use core_layers::{Checked, Layer, Source, add_parameters, add_pattern};
use core_scopes::Scope;
use mo_num::Memory;
use std::alloc::Global;
use typed_tree::TypedPattern;

// The checks of the pattern of the context, which is the name of this level.
fn add_context(
    alloc: Global,
    context: &Option<TypedPattern>,
    level: u32,
    checked: &mut Checked,
) -> Result<(), Memory>
    ensures { OnOk result (Adds (checks.check (context_pattern context.now) (Named level) checked.old.names) checked.old checked.new) }
{
    match context {
        Some(pattern) => add_pattern(alloc, pattern, Source::Named(level), checked),
        None => Ok(()),
    }
}

/// Patterns on the context of a call and on the parameters, which Core alone has yet, the context nearest.
pub(crate) fn bind_context(
    alloc: Global,
    context: &Option<TypedPattern>,
    parameters: &[TypedPattern],
    scope: &mut Scope,
) -> Result<Vec<Layer>, Memory>
    ensures checks { IfOk result (λ made. (fails e : Exp) → layered made.items fails e ≡ checks.around_all (checks.check_all (APat (context_pattern context.now) (patterns parameters.now)) (scope.old.names - 1) scope.old.names).checks fails e) }
    ensures scope { OnOk result (scope.new ≡ checks.behind (checks.check_all (APat (context_pattern context.now) (patterns parameters.now)) (scope.old.names - 1) scope.old.names) scope.old) }
{
    let names = scope.names();
    let level = names.saturating_sub(1);
    let mut checked = Checked::new(alloc, names);
    add_context(alloc, context, level, &mut checked)?;
    add_parameters(alloc, parameters, level.saturating_sub(1), &mut checked)?;
    let Checked {
        layers,
        names,
        bound,
    } = checked;
    scope.go_behind(bound.as_slice(), names)?;
    Ok(layers)
}
