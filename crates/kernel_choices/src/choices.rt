//! Forms of several parts.
ghost use Rattle.std.specs.Prelude.{◌≡◌, IfOk, OnOk};
ghost use Rattle.typing_rules.specs.AbstractSyntax as syntax;
ghost use Rattle.kernel_choices.specs.Whens.{when_at};
ghost use Rattle.kernel_parts.specs.Views.{expression_in, form_of};
ghost use Rattle.kernel_parts.specs.Writing.{Writes};

use abstract_tree::Expression;
use kernel_frames::Frames;
use kernel_members::element;
use kernel_nodes::{at, unit_value};
use kernel_operators::binary as binary_value;
use kernel_parts::{Layer, Part, Written};
use kernel_types::KernelTypes;
use mo_num::Memory;
use mo_syntax::BinaryOperator;
use std::alloc::Global;
use type_terms::TermId;
use typed_tree::{Form, TypedExpression};
use value_scopes::Note;

/// `if c a`, from what its parts are written out to.
fn when_value(
    alloc: Global,
    types: &KernelTypes,
    kind: TermId,
    c: TypedExpression,
    a: TypedExpression,
) -> Result<TypedExpression, Memory>
    ensures { IfOk result (λ made. made ≡ when_at types.now kind c a) }
{
    let nothing = unit_value(alloc, types)?;
    at(alloc, types, kind, Form::If(c, a, nothing))
}

/// `if c a`: Motoko language manual, section "If".
pub fn when<F: Fn(&mut Frames, Part<'_>) -> Written>(
    layer: &Layer<'_, F>,
    frames: &mut Frames,
    note: Note,
    c: &Expression<Note>,
    a: &Expression<Note>,
) -> Written
    requires writes { Writes layer.now.depth (F.pre layer.now.write) (F.post layer.now.write) }
    ensures made { IfOk result (λ made. made ≡ form_of layer.now.types.now frames.old note (syntax.When (expression_in layer.now.types.now c.now) (expression_in layer.now.types.now a.now))) }
    ensures same { OnOk result (frames.new ≡ frames.old) }
{
    let parts = layer.two(frames, c, a)?;
    when_value(layer.alloc, layer.types, note.kind, parts.0, parts.1)
}

/// `while c a`: Motoko language manual, section "While".
pub fn while_loop<F: Fn(&mut Frames, Part<'_>) -> Written>(
    layer: &Layer<'_, F>,
    frames: &mut Frames,
    note: Note,
    c: &Expression<Note>,
    a: &Expression<Note>,
) -> Written
    requires writes { Writes layer.now.depth (F.pre layer.now.write) (F.post layer.now.write) }
    ensures made { IfOk result (λ made. made ≡ form_of layer.now.types.now frames.old note (syntax.While (expression_in layer.now.types.now c.now) (expression_in layer.now.types.now a.now))) }
    ensures same { OnOk result (frames.new ≡ frames.old) }
{
    let parts = layer.two(frames, c, a)?;
    at(
        layer.alloc,
        layer.types,
        note.kind,
        Form::While(parts.0, parts.1),
    )
}

/// `loop a while c`: Motoko language manual, section "Loop-while".
pub fn loop_while<F: Fn(&mut Frames, Part<'_>) -> Written>(
    layer: &Layer<'_, F>,
    frames: &mut Frames,
    note: Note,
    a: &Expression<Note>,
    c: &Expression<Note>,
) -> Written
    requires writes { Writes layer.now.depth (F.pre layer.now.write) (F.post layer.now.write) }
    ensures made { IfOk result (λ made. made ≡ form_of layer.now.types.now frames.old note (syntax.LoopWhile (expression_in layer.now.types.now a.now) (expression_in layer.now.types.now c.now))) }
    ensures same { OnOk result (frames.new ≡ frames.old) }
{
    let parts = layer.two(frames, a, c)?;
    at(
        layer.alloc,
        layer.types,
        note.kind,
        Form::Repeat(parts.0, parts.1),
    )
}

/// `if c a else b`: Motoko language manual, section "If".
pub fn conditional<F: Fn(&mut Frames, Part<'_>) -> Written>(
    layer: &Layer<'_, F>,
    frames: &mut Frames,
    note: Note,
    c: &Expression<Note>,
    a: &Expression<Note>,
    b: &Expression<Note>,
) -> Written
    requires writes { Writes layer.now.depth (F.pre layer.now.write) (F.post layer.now.write) }
    ensures made { IfOk result (λ made. made ≡ form_of layer.now.types.now frames.old note (syntax.If (expression_in layer.now.types.now c.now) (expression_in layer.now.types.now a.now) (expression_in layer.now.types.now b.now))) }
    ensures same { OnOk result (frames.new ≡ frames.old) }
{
    let parts = layer.three(frames, c, a, b)?;
    at(
        layer.alloc,
        layer.types,
        note.kind,
        Form::If(parts.0, parts.1, parts.2),
    )
}

/// `a[i]`: Motoko language manual, section "Array indexing".
pub fn index<F: Fn(&mut Frames, Part<'_>) -> Written>(
    layer: &Layer<'_, F>,
    frames: &mut Frames,
    note: Note,
    a: &Expression<Note>,
    i: &Expression<Note>,
) -> Written
    requires writes { Writes layer.now.depth (F.pre layer.now.write) (F.post layer.now.write) }
    ensures made { IfOk result (λ made. made ≡ form_of layer.now.types.now frames.old note (syntax.Index (expression_in layer.now.types.now a.now) (expression_in layer.now.types.now i.now))) }
    ensures same { OnOk result (frames.new ≡ frames.old) }
{
    let parts = layer.two(frames, a, i)?;
    element(
        layer.alloc,
        layer.types,
        note.kind,
        a.note.kind,
        parts.0,
        parts.1,
    )
}

/// `a op b`: Motoko language manual, section "Binary operators".
pub fn binary<F: Fn(&mut Frames, Part<'_>) -> Written>(
    layer: &Layer<'_, F>,
    frames: &mut Frames,
    note: Note,
    operator: BinaryOperator,
    a: &Expression<Note>,
    b: &Expression<Note>,
) -> Written
    requires writes { Writes layer.now.depth (F.pre layer.now.write) (F.post layer.now.write) }
    ensures made { IfOk result (λ made. made ≡ form_of layer.now.types.now frames.old note (syntax.Binary operator (expression_in layer.now.types.now a.now) (expression_in layer.now.types.now b.now))) }
    ensures same { OnOk result (frames.new ≡ frames.old) }
{
    let parts = layer.two(frames, a, b)?;
    binary_value(
        layer.alloc,
        layer.types,
        operator,
        note.kind,
        a.note.kind,
        parts.0,
        parts.1,
    )
}
