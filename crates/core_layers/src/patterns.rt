//! The checks of patterns.
ghost use Rattle.std.specs.Prelude.{◌≡◌, IfOk, OnOk};
ghost use Rattle.core_ir.specs.Expressions.{Exp};
ghost use Rattle.core_ir.specs.View.{expression};
ghost use Rattle.typed_tree.specs.Patterns.{Bind};
ghost use Rattle.typed_tree.specs.PatternView.{literal_part, literal_pattern, pats, pattern, patterns};
ghost use Rattle.typed_tree.specs.ViewLaws.{labels_of, patterns_of};
ghost use Rattle.elaboration.specs.Checks as checks;
ghost use Rattle.elaboration.specs.Checks.{check, check_all, check_fields, check_parts, truth, Named};
ghost use Rattle.core_layers.specs.Layers.{either_around, layer, seen_source, Adds, Opened};

use crate::layer::{Checked, Fails, Layer};
use crate::nesting::around;
use crate::source::{Piece, Source, load, one_more, value_of};
use crate::words::{flag, one, part_of};
use core_ir::{Constant, Constructor, Expression, Goal, Primitive, Shared};
use mo_num::{Bytes, Memory};
use mo_syntax::{Node, Place};
use std::alloc::Global;
use typed_tree::{Literal, PatternField, PatternForm, TypedPattern};

// The value has the form; what is inside it is the nearest name then, before which stand so many.
fn open(
    alloc: Global,
    form: Constructor,
    source: Source<'_>,
    checked: &mut Checked,
) -> Result<u32, Memory>
    ensures level { IfOk result (λ level. level ≡ checked.old.names) }
    ensures checks { OnOk result (Opened form (seen_source source.entry checked.old.names) checked.old checked.new) }
{
    let level = checked.names;
    let value = value_of(alloc, source, level)?;
    checked.names = one_more(level)?;
    checked
        .layers
        .push(Layer::Opens(Shared::new(alloc, form)?, value))?;
    Ok(level)
}

// The value has a name of the pattern.
fn bind(alloc: Global, source: Source<'_>, checked: &mut Checked) -> Result<(), Memory>
    ensures { OnOk result (Adds (check Bind (seen_source source.entry checked.old.names) checked.old.names) checked.old checked.new) }
{
    let level = load(alloc, source, checked)?;
    checked.bound.push(level)?;
    Ok(())
}

// Whether the value is this literal.
fn same(alloc: Global, literal: &Literal, value: Expression) -> Result<Layer, Memory>
    ensures { IfOk result (λ made. (fails e : Exp) → layer made fails e ≡ checks.around (checks.same (literal_part literal.now) (expression value)) fails e) }
{
    let what = Shared::new(alloc, Primitive::Is(part_of(alloc, literal)?))?;
    Ok(Layer::Holds(what, one(alloc, value)?))
}

// Whether the first truth value is `true`, or else the second one.
#[tactic(auto, unfolding(core_ir::specs::View::expression, core_ir::specs::View::goal))]
fn either(
    alloc: Global,
    place: Place,
    first: Expression,
    second: Expression,
) -> Result<Layer, Memory>
    ensures { IfOk result (λ made. (fails e : Exp) → layer made fails e ≡ either_around (expression first) (expression second) fails e) }
{
    let copy = Shared::new(alloc, Primitive::Copy)?;
    let choice = Goal::Choose(
        copy.share()?,
        Node::new(alloc, place, flag(alloc, true)?)?,
        Node::new(alloc, place, second)?,
    );
    let chosen = Expression::Do(choice, one(alloc, first)?);
    Ok(Layer::Holds(copy, one(alloc, chosen)?))
}

// The value is this literal.
fn add_literal(
    alloc: Global,
    literal: &Literal,
    source: Source<'_>,
    checked: &mut Checked,
) -> Result<(), Memory>
    ensures { OnOk result (Adds (check (literal_pattern literal.now) (seen_source source.entry checked.old.names) checked.old.names) checked.old checked.new) }
{
    match literal {
        Literal::Unit => {
            load(alloc, source, checked)?;
        }
        Literal::Null => {
            let value = value_of(alloc, source, checked.names)?;
            checked.layers.push(Layer::IsNull(value))?;
        }
        _ => {
            let value = value_of(alloc, source, checked.names)?;
            checked.layers.push(same(alloc, literal, value)?)?;
        }
    }
    Ok(())
}

/// Adds the checks of a pattern on a value. It recurs as deep as the pattern.
#[cycle(pattern)]
#[tactic(auto, unfolding(typed_tree::specs::PatternView::pattern, typed_tree::specs::PatternView::pattern_form, typed_tree::specs::ViewLaws::field))]
pub fn add_pattern(
    alloc: Global,
    typed: &TypedPattern,
    source: Source<'_>,
    checked: &mut Checked,
) -> Result<(), Memory>
    ensures { OnOk result (Adds (check (pattern typed.now) (seen_source source.entry checked.old.names) checked.old.names) checked.old checked.new) }
{
    match typed.form.get() {
        PatternForm::Wildcard => Ok(()),
        PatternForm::Bind => bind(alloc, source, checked),
        PatternForm::Constant(literal) => add_literal(alloc, literal, source, checked),
        PatternForm::Present(inside) => {
            let level = open(alloc, Constructor::Present, source, checked)?;
            add_pattern(alloc, inside, Source::Named(level), checked)
        }
        PatternForm::Tagged(tag, inside) => {
            let tag = Bytes::from_slice(alloc, tag.as_slice())?;
            let level = open(alloc, Constructor::Tagged(tag), source, checked)?;
            add_pattern(alloc, inside, Source::Named(level), checked)
        }
        PatternForm::Parts(parts) => {
            let level = load(alloc, source, checked)?;
            add_parts(alloc, parts.as_slice(), level, checked)
        }
        PatternForm::Fields(fields) => {
            let level = load(alloc, source, checked)?;
            add_fields(alloc, fields.as_slice(), level, checked)
        }
        PatternForm::Either(first, second) => {
            let level = load(alloc, source, checked)?;
            let first = truth_of(alloc, first, level, checked.names)?;
            let second = truth_of(alloc, second, level, checked.names)?;
            checked
                .layers
                .push(either(alloc, typed.form.place(), first, second)?)?;
            Ok(())
        }
    }
}

// Whether a pattern without names matches the value of a name.
#[cycle(pattern)]
fn truth_of(
    alloc: Global,
    typed: &TypedPattern,
    level: u32,
    names: u32,
) -> Result<Expression, Memory>
    ensures { IfOk result (λ made. expression made ≡ truth (check (pattern typed.now) (Named level) names).checks) }
{
    let mut checked = Checked::new(alloc, names);
    add_pattern(alloc, typed, Source::Named(level), &mut checked)?;
    let Checked { layers, .. } = checked;
    around(
        alloc,
        typed.form.place(),
        layers,
        Fails::GivesFalse,
        flag(alloc, true)?,
    )
}

// Those of the parts of a tuple.
#[cycle(pattern)]
fn add_parts(
    alloc: Global,
    parts: &[TypedPattern],
    level: u32,
    checked: &mut Checked,
) -> Result<(), Memory>
    ensures { OnOk result (Adds (check_parts (patterns parts.now) 0 level checked.old.names) checked.old checked.new) }
{
    let mut number = 0;
    for part in parts {
        add_pattern(
            alloc,
            part,
            Source::Part(Piece::Number(number), level),
            checked,
        )?;
        number = one_more(number)?;
    }
    Ok(())
}

// Those of the fields of an object.
#[cycle(pattern)]
#[tactic(auto, unfolding(typed_tree::specs::PatternView::pattern, typed_tree::specs::ViewLaws::field))]
fn add_fields(
    alloc: Global,
    fields: &[PatternField],
    level: u32,
    checked: &mut Checked,
) -> Result<(), Memory>
    ensures { OnOk result (Adds (check_fields (labels_of fields.now) (pats (patterns_of fields.now)) level checked.old.names) checked.old checked.new) }
{
    for field in fields {
        add_pattern(
            alloc,
            &field.pattern,
            Source::Part(Piece::Field(&field.label), level),
            checked,
        )?;
    }
    Ok(())
}

/// Adds the checks of the patterns of a function's parameters, the first one on the name before which so many others stand, and
/// each further one on the name before.
pub fn add_parameters(
    alloc: Global,
    parameters: &[TypedPattern],
    level: u32,
    checked: &mut Checked,
) -> Result<(), Memory>
    ensures { OnOk result (Adds (check_all (patterns parameters.now) level checked.old.names) checked.old checked.new) }
{
    let mut level = level;
    for parameter in parameters {
        add_pattern(alloc, parameter, Source::Named(level), checked)?;
        level = level.saturating_sub(1);
    }
    Ok(())
}
