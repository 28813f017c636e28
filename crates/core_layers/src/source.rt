//! The values that patterns meet.
ghost use Rattle.std.specs.Prelude.{◌≡◌, suc, IfOk, OnOk};
ghost use Rattle.core_ir.specs.View.{expression};
ghost use Rattle.elaboration.specs.Checks as checks;
ghost use Rattle.core_layers.specs.Layers.{seen_source, taken, Loads};

use crate::layer::{Checked, Layer};
use crate::words::{one, operation};
use core_ir::{Binding, Expression};
use core_scopes::name_at;
use mo_num::{Bytes, Memory};
use mo_values::Operation;
use std::alloc::Global;

/// A part of a value.
#[derive(Clone, Copy)]
pub enum Piece<'a> {
    /// The one with this number.
    Number(u32),
    /// The field with this label.
    Field(&'a Bytes),
}

/// The value that a pattern meets: one that has a name, or a part of one, which is not loaded yet.
#[derive(Clone, Copy)]
pub enum Source<'a> {
    /// The name before which so many others stand.
    Named(u32),
    /// A part of the value whose name stands behind so many others.
    Part(Piece<'a>, u32),
}

// A part of a value.
fn taken(alloc: Global, piece: Piece<'_>, whole: Expression) -> Result<Expression, Memory>
    ensures { IfOk result (λ made. expression made ≡ taken piece.entry (expression whole)) }
{
    let whole = one(alloc, whole)?;
    match piece {
        Piece::Number(number) => operation(alloc, Operation::Project(number), whole),
        Piece::Field(label) => {
            let label = Bytes::from_slice(alloc, label.as_slice())?;
            operation(alloc, Operation::Field(label), whole)
        }
    }
}

// The value, under so many names.
pub(crate) fn value_of(alloc: Global, source: Source<'_>, names: u32) -> Result<Expression, Memory>
    ensures { IfOk result (λ made. expression made ≡ checks.value_of (seen_source source.entry names) names) }
{
    match source {
        Source::Named(level) => Ok(name_at(names, level)),
        Source::Part(piece, level) => taken(alloc, piece, name_at(names, level)),
    }
}

// One name more. There are never so many that their number is none of 32 bits.
pub(crate) fn one_more(names: u32) -> Result<u32, Memory>
    ensures { IfOk result (λ more. more ≡ suc names) }
{
    match names.checked_add(1) {
        Some(more) => Ok(more),
        None => Err(Memory),
    }
}

// Loads the value where it has no name yet, and says how many names stand before its own.
pub(crate) fn load(alloc: Global, source: Source<'_>, checked: &mut Checked) -> Result<u32, Memory>
    ensures level { IfOk result (λ level. level ≡ checks.level_of (seen_source source.entry checked.old.names) checked.old.names) }
    ensures checks { OnOk result (Loads (seen_source source.entry checked.old.names) checked.old checked.new) }
{
    match source {
        Source::Named(level) => Ok(level),
        Source::Part(_, _) => {
            let level = checked.names;
            let value = value_of(alloc, source, level)?;
            checked.names = one_more(level)?;
            checked.layers.push(Layer::Binding(Binding::Value(value)))?;
            Ok(level)
        }
    }
}
