//! Where the value of a name is.
ghost use Rattle.std.specs.Prelude.{◌≡◌, ◌+◌, ◌-◌, IfOk};
ghost use Rattle.core_ir.specs.View.{expression};
ghost use Rattle.elaboration.specs.Scopes as scopes;
ghost use Rattle.core_scopes.specs.Seen.{seen_place};

use core_ir::{Constant, Expression, Shared};
use mo_num::Memory;
use std::alloc::Global;

/// Where the value of a name of the source is.
#[derive(Clone, Copy, Debug, PartialEq, Eq)]
pub enum Place {
    /// The name before which so many others stand.
    Local(u32),
    /// A name of the actor.
    Own(u32),
    /// Of a name that nothing uses.
    Nowhere,
}

/// `()`
#[tactic(auto, unfolding(core_ir::specs::View::expression))]
pub fn nothing(alloc: Global) -> Result<Expression, Memory>
    ensures { IfOk result (λ made. expression made ≡ scopes.nothing) }
{
    Ok(Expression::Constant(Shared::new(alloc, Constant::Unit)?))
}

/// The name before which `level` others stand, where there are so many names.
#[tactic(auto, unfolding(core_ir::specs::View::expression))]
pub fn name_at(names: u32, level: u32) -> Expression
    ensures { expression result ≡ scopes.name names level }
{
    Expression::Name(between(names, level))
}

/// How many stand between the end and the one before which so many others stand.
pub(crate) fn between(all: u32, level: u32) -> u32
    ensures { result ≡ all - (level + 1) }
{
    if level < all { all - level - 1 } else { 0 }
}

/// The value at a place, where there are so many names.
#[tactic(auto, unfolding(core_ir::specs::View::expression))]
pub fn at_place(alloc: Global, names: u32, place: Place) -> Result<Expression, Memory>
    ensures { IfOk result (λ made. expression made ≡ scopes.at_place names (seen_place place)) }
{
    match place {
        Place::Local(level) => Ok(name_at(names, level)),
        Place::Own(number) => Ok(Expression::Global(number)),
        Place::Nowhere => nothing(alloc),
    }
}
