//! Values of stable variables.
ghost use Rattle.std.specs.Prelude.{◌≡◌, suc, IfOk};
ghost use Rattle.core_ir.specs.View.{expression};
ghost use Rattle.core_ir.specs.declared.primitive.Constructor.TheVariants as constructor;
ghost use Rattle.elaboration.specs.Checks.{IsNull, Opens};
ghost use Rattle.elaboration.specs.Checks as checks;
ghost use Rattle.elaboration.specs.Elaboration as elaboration;
ghost use Rattle.elaboration.specs.Scopes.{name, nothing};
ghost use Rattle.core_layers.specs.Layers.{layer};
ghost use Rattle.core_blocks.specs.Kept.{chosen};

use core_forms::{break_with, labelled};
use core_ir::{Constructor, Expression, Shared};
use core_layers::{Fails, Layer, around, let_in};
use core_parts::{failure, one_more};
use core_scopes::name_at;
use mo_num::Memory;
use mo_syntax::Place;
use std::alloc::Global;

// What follows one check, or `()`.
fn tested(
    alloc: Global,
    place: Place,
    check: Layer,
    inner: Expression,
) -> Result<Expression, Memory>
    ensures { IfOk result (λ made. expression made ≡ layer check nothing (expression inner)) }
{
    let mut layers = Vec::new(alloc);
    layers.push(check)?;
    around(alloc, place, layers, Fails::GivesUnit, inner)
}

// What leaves the label where the value of this level is null.
fn where_null(
    alloc: Global,
    place: Place,
    level: u32,
    names: u32,
    value: Expression,
) -> Result<Expression, Memory>
    ensures { IfOk result (λ made. expression made ≡ checks.around (IsNull (name names level)) nothing (elaboration.break_with (expression value))) }
{
    let leaves = break_with(alloc, value)?;
    tested(alloc, place, Layer::IsNull(name_at(names, level)), leaves)
}

// What leaves the label with what is inside the value of this level.
fn where_present(alloc: Global, place: Place, level: u32, names: u32) -> Result<Expression, Memory>
    ensures { IfOk result (λ made. expression made ≡ checks.around (Opens constructor.Present (name names level)) nothing (elaboration.break_with (name (suc names) names))) }
{
    let leaves = break_with(alloc, name_at(one_more(names)?, names))?;
    let form = Shared::new(alloc, Constructor::Present)?;
    tested(
        alloc,
        place,
        Layer::Opens(form, name_at(names, level)),
        leaves,
    )
}

/// What was kept of a stable variable, or else the value, where so many names stand before that of what was kept.
pub(crate) fn kept_chosen(
    alloc: Global,
    place: Place,
    kept: Expression,
    value: Expression,
    level: u32,
) -> Result<Expression, Memory>
    ensures { IfOk result (λ made. expression made ≡ chosen level (suc level) (suc (suc level)) (expression kept) (expression value)) }
{
    let names = one_more(level)?;
    let null = where_null(alloc, place, level, names, value)?;
    let present = where_present(alloc, place, level, one_more(names)?)?;
    let tries = let_in(alloc, place, present, failure(alloc)?)?;
    let tries = let_in(alloc, place, null, tries)?;
    let_in(alloc, place, kept, labelled(alloc, place, tries)?)
}
