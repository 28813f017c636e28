//! Places that are assigned to, and numbers with their signs.
ghost use Rattle.std.specs.Prelude.{◌≡◌, IfOk, OnOk};
ghost use Rattle.typing_rules.specs.AbstractSyntax as syntax;
ghost use Rattle.kernel_choices.specs.Cells.{cell_of, element_written_of, negated_of, signed_of, written_of};
ghost use Rattle.kernel_parts.specs.Views.{expression_in, form_of};
ghost use Rattle.kernel_parts.specs.Writing.{Writes};

use abstract_tree::Expression;
use kernel_frames::Frames;
use kernel_members::{element_place, field};
use kernel_nodes::{acts, at, constant, name, three, two};
use kernel_operators::{negative as negative_value, operation};
use kernel_parts::{Layer, Part, Written};
use kernel_patterns::kernel_literal;
use kernel_shapes::{Place, number_form, place_form};
use kernel_types::KernelTypes;
use mo_syntax::{BinaryOperator, Literal};
use std::alloc::Global;
use typed_tree::{Action, Form};
use value_scopes::Note;

/// The cell that is assigned to.
fn cell<F: Fn(&mut Frames, Part<'_>) -> Written>(
    layer: &Layer<'_, F>,
    frames: &mut Frames,
    to: &Expression<Note>,
) -> Written
    requires writes { Writes layer.now.depth (F.pre layer.now.write) (F.post layer.now.write) }
    ensures made { IfOk result (λ made. made ≡ cell_of layer.now.types.now frames.old to.now) }
    ensures same { OnOk result (frames.new ≡ frames.old) }
{
    let kind = to.note.kind;
    match place_form(to.form.get()) {
        Place::Name(of) => {
            let found = frames.find(of);
            name(layer.alloc, layer.types, kind, found.index)
        }
        Place::Member(a, label) => {
            let part = layer.part(frames, a)?;
            field(layer.alloc, layer.types, kind, label, part)
        }
        Place::Element(a, i) => {
            let parts = layer.two(frames, a, i)?;
            element_place(layer.alloc, layer.types, kind, parts.0, parts.1)
        }
        Place::Other => layer.part(frames, to),
    }
}

/// A value that is written into a cell.
fn write_cell<F: Fn(&mut Frames, Part<'_>) -> Written>(
    layer: &Layer<'_, F>,
    frames: &mut Frames,
    note: Note,
    to: &Expression<Note>,
    a: &Expression<Note>,
) -> Written
    requires writes { Writes layer.now.depth (F.pre layer.now.write) (F.post layer.now.write) }
    ensures made { IfOk result (λ made. made ≡ written_of layer.now.types.now frames.old note.kind to.now a.now) }
    ensures same { OnOk result (frames.new ≡ frames.old) }
{
    let place = cell(layer, frames, to)?;
    let value = layer.part(frames, a)?;
    let operands = two(layer.alloc, place, value)?;
    acts(layer.alloc, layer.types, note.kind, Action::Write, operands)
}

/// A value that is written into an element, whose bound is tested after it.
fn write_element<F: Fn(&mut Frames, Part<'_>) -> Written>(
    layer: &Layer<'_, F>,
    frames: &mut Frames,
    note: Note,
    of: &Expression<Note>,
    i: &Expression<Note>,
    a: &Expression<Note>,
) -> Written
    requires writes { Writes layer.now.depth (F.pre layer.now.write) (F.post layer.now.write) }
    ensures made { IfOk result (λ made. made ≡ element_written_of layer.now.types.now frames.old note.kind of.now i.now a.now) }
    ensures same { OnOk result (frames.new ≡ frames.old) }
{
    let parts = layer.three(frames, of, i, a)?;
    let operands = three(layer.alloc, parts.0, parts.1, parts.2)?;
    acts(
        layer.alloc,
        layer.types,
        note.kind,
        Action::WriteElement,
        operands,
    )
}

/// `p := a`: Motoko language manual, section "Assignment".
pub fn assign<F: Fn(&mut Frames, Part<'_>) -> Written>(
    layer: &Layer<'_, F>,
    frames: &mut Frames,
    note: Note,
    to: &Expression<Note>,
    a: &Expression<Note>,
) -> Written
    requires writes { Writes layer.now.depth (F.pre layer.now.write) (F.post layer.now.write) }
    ensures made { IfOk result (λ made. made ≡ form_of layer.now.types.now frames.old note (syntax.Assign (expression_in layer.now.types.now to.now) (expression_in layer.now.types.now a.now))) }
    ensures same { OnOk result (frames.new ≡ frames.old) }
{
    match place_form(to.form.get()) {
        Place::Element(of, i) => write_element(layer, frames, note, of, i, a),
        Place::Name(_) => write_cell(layer, frames, note, to, a),
        Place::Member(_, _) => write_cell(layer, frames, note, to, a),
        Place::Other => write_cell(layer, frames, note, to, a),
    }
}

/// `p += a`, or with another operator: Motoko language manual, section "Unary compound assignment".
pub fn assign_by<F: Fn(&mut Frames, Part<'_>) -> Written>(
    layer: &Layer<'_, F>,
    frames: &mut Frames,
    note: Note,
    operator: BinaryOperator,
    to: &Expression<Note>,
    a: &Expression<Note>,
) -> Written
    requires writes { Writes layer.now.depth (F.pre layer.now.write) (F.post layer.now.write) }
    ensures made { IfOk result (λ made. made ≡ form_of layer.now.types.now frames.old note (syntax.AssignBy operator (expression_in layer.now.types.now to.now) (expression_in layer.now.types.now a.now))) }
    ensures same { OnOk result (frames.new ≡ frames.old) }
{
    let done = operation(layer.types, operator, to.note.kind)?;
    let place = cell(layer, frames, to)?;
    let value = layer.part(frames, a)?;
    at(
        layer.alloc,
        layer.types,
        note.kind,
        Form::Update(done, place, value),
    )
}

/// A number with its sign.
fn signed_number(alloc: Global, types: &KernelTypes, note: Note, number: u64) -> Written
    ensures { IfOk result (λ made. made ≡ signed_of types.now note.kind number) }
{
    let literal = kernel_literal(alloc, types, note.kind, true, &Literal::Number(number))?;
    constant(alloc, types, note.kind, literal)
}

/// `- a`, of what is no number.
fn negated<F: Fn(&mut Frames, Part<'_>) -> Written>(
    layer: &Layer<'_, F>,
    frames: &mut Frames,
    note: Note,
    a: &Expression<Note>,
) -> Written
    requires writes { Writes layer.now.depth (F.pre layer.now.write) (F.post layer.now.write) }
    ensures made { IfOk result (λ made. made ≡ negated_of layer.now.types.now frames.old note.kind a.now) }
    ensures same { OnOk result (frames.new ≡ frames.old) }
{
    let part = layer.part(frames, a)?;
    negative_value(layer.alloc, layer.types, note.kind, part)
}

/// `- a`, where a number with its sign is a literal: Motoko language manual, section "Unary operators".
pub fn negative<F: Fn(&mut Frames, Part<'_>) -> Written>(
    layer: &Layer<'_, F>,
    frames: &mut Frames,
    note: Note,
    a: &Expression<Note>,
) -> Written
    requires writes { Writes layer.now.depth (F.pre layer.now.write) (F.post layer.now.write) }
    ensures made { IfOk result (λ made. made ≡ form_of layer.now.types.now frames.old note (syntax.Negative (expression_in layer.now.types.now a.now))) }
    ensures same { OnOk result (frames.new ≡ frames.old) }
{
    match number_form(a.form.get()) {
        Some(of) => signed_number(layer.alloc, layer.types, note, of),
        None => negated(layer, frames, note, a),
    }
}
