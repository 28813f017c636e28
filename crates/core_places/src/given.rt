//! Values of names.
ghost use Rattle.std.specs.Prelude.{◌≡◌, ◌++◌, ℕ, List, length, IfOk};
ghost use Rattle.core_ir.specs.View.{expression};
ghost use Rattle.elaboration.specs.Checks.{locals};
ghost use Rattle.elaboration.specs.Programs as programs;
ghost use Rattle.elaboration.specs.Scopes as scopes;

use core_ir::Expression;
use core_layers::operation;
use core_scopes::Scope;
use mo_num::Memory;
use mo_syntax::Items;
use mo_values::Operation;
use std::alloc::Global;

/// The values of the nearest names, so many, as a tuple.
pub fn values(alloc: Global, scope: &Scope, count: u32) -> Result<Expression, Memory>
    ensures { IfOk result (λ made. (levels : List ℕ) (others : List scopes.Place) → scope.now.places ≡ locals levels ++ others → length levels ≡ count
        → expression made ≡ programs.tuple (programs.values_of scope.now.names (locals levels))) }
{
    let mut made = Items::new(alloc);
    for index in 0..count {
        let value = scope.read_name(index)?;
        made.push(value)?;
    }
    operation(alloc, Operation::MakeTuple, made)
}
