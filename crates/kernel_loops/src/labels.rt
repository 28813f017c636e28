//! Labels, loops under labels, and option blocks.
ghost use Rattle.std.specs.Prelude.{◌≡◌, IfOk, OnOk};
ghost use Rattle.typing_rules.specs.AbstractSyntax as syntax;
ghost use Rattle.abstract_types.specs.TypeView.{annotation};
ghost use Rattle.desugaring.specs.Frames.{Labelled, Optional, with_exit};
ghost use Rattle.kernel_parts.specs.Views.{expression_in, form_of, tree_of};
ghost use Rattle.kernel_parts.specs.Writing.{Writes};
ghost use Rattle.kernel_loops.specs.Loops.{for_under_of, loop_under_of, loop_while_under_of, looped_in, while_under_of};

use abstract_tree::Expression;
use abstract_types::{Pattern, TypeNode};
use kernel_frames::{Exit, Frames};
use kernel_nodes::{at, operate_on};
use kernel_parts::{Layer, Part, Written};
use kernel_patterns::kernel_pattern;
use kernel_scopes::{continued, continued_with};
use kernel_shapes::{Looped, looped_form};
use mo_num::Bytes;
use mo_values::Operation;
use typed_tree::Form;
use value_scopes::Note;

/// `while c a` under a label.
fn while_under<F: Fn(&mut Frames, Part<'_>) -> Written>(
    layer: &Layer<'_, F>,
    frames: &mut Frames,
    note: Note,
    label: &[u8],
    c: &Expression<Note>,
    a: &Expression<Note>,
) -> Written
    requires writes { Writes layer.now.depth (F.pre layer.now.write) (F.post layer.now.write) }
    ensures made { IfOk result (λ made. made ≡ while_under_of layer.now.types.now frames.old note.kind label.now c.now a.now) }
    ensures same { OnOk result (frames.new ≡ frames.old) }
{
    let condition = layer.part(frames, c)?;
    let body = continued(layer, frames, label, a)?;
    at(
        layer.alloc,
        layer.types,
        note.kind,
        Form::While(condition, body),
    )
}

/// `loop a` under a label.
fn loop_under<F: Fn(&mut Frames, Part<'_>) -> Written>(
    layer: &Layer<'_, F>,
    frames: &mut Frames,
    note: Note,
    label: &[u8],
    a: &Expression<Note>,
) -> Written
    requires writes { Writes layer.now.depth (F.pre layer.now.write) (F.post layer.now.write) }
    ensures made { IfOk result (λ made. made ≡ loop_under_of layer.now.types.now frames.old note.kind label.now a.now) }
    ensures same { OnOk result (frames.new ≡ frames.old) }
{
    let body = continued(layer, frames, label, a)?;
    at(layer.alloc, layer.types, note.kind, Form::Loop(body))
}

/// `loop a while c` under a label.
fn loop_while_under<F: Fn(&mut Frames, Part<'_>) -> Written>(
    layer: &Layer<'_, F>,
    frames: &mut Frames,
    note: Note,
    label: &[u8],
    a: &Expression<Note>,
    c: &Expression<Note>,
) -> Written
    requires writes { Writes layer.now.depth (F.pre layer.now.write) (F.post layer.now.write) }
    ensures made { IfOk result (λ made. made ≡ loop_while_under_of layer.now.types.now frames.old note.kind label.now a.now c.now) }
    ensures same { OnOk result (frames.new ≡ frames.old) }
{
    let body = continued(layer, frames, label, a)?;
    let condition = layer.part(frames, c)?;
    at(
        layer.alloc,
        layer.types,
        note.kind,
        Form::Repeat(body, condition),
    )
}

/// `for (p in a) b` under a label.
fn for_under<F: Fn(&mut Frames, Part<'_>) -> Written>(
    layer: &Layer<'_, F>,
    frames: &mut Frames,
    note: Note,
    label: &[u8],
    q: &Pattern<Note>,
    a: &Expression<Note>,
    b: &Expression<Note>,
) -> Written
    requires writes { Writes layer.now.depth (F.pre layer.now.write) (F.post layer.now.write) }
    ensures made { IfOk result (λ made. made ≡ for_under_of layer.now.types.now frames.old note.kind label.now q.now a.now b.now) }
    ensures same { OnOk result (frames.new ≡ frames.old) }
{
    let pattern = kernel_pattern(layer.alloc, layer.types, q)?;
    let of = layer.part(frames, a)?;
    let body = continued_with(layer, frames, q, label, b)?;
    at(
        layer.alloc,
        layer.types,
        note.kind,
        Form::For(pattern, of, body),
    )
}

/// What stands under a label. The body of a loop has a label of its own, which `continue` leaves.
fn under_label<F: Fn(&mut Frames, Part<'_>) -> Written>(
    layer: &Layer<'_, F>,
    frames: &mut Frames,
    label: &[u8],
    a: &Expression<Note>,
) -> Written
    requires writes { Writes layer.now.depth (F.pre layer.now.write) (F.post layer.now.write) }
    ensures made { IfOk result (λ made. made ≡ looped_in layer.now.types.now frames.old label.now a.now) }
    ensures same { OnOk result (frames.new ≡ frames.old) }
{
    let note = a.note;
    match looped_form(a.form.get()) {
        Looped::While(c, body) => while_under(layer, frames, note, label, c, body),
        Looped::Loop(body) => loop_under(layer, frames, note, label, body),
        Looped::LoopWhile(body, c) => loop_while_under(layer, frames, note, label, body, c),
        Looped::For(q, of, body) => for_under(layer, frames, note, label, q, of, body),
        Looped::Other => layer.part(frames, a),
    }
}

/// What stands under a label, which can be left there.
fn labelled_body<F: Fn(&mut Frames, Part<'_>) -> Written>(
    layer: &Layer<'_, F>,
    frames: &mut Frames,
    label: &[u8],
    a: &Expression<Note>,
) -> Written
    requires writes { Writes layer.now.depth (F.pre layer.now.write) (F.post layer.now.write) }
    ensures made { IfOk result (λ made. made ≡ looped_in layer.now.types.now (with_exit (Labelled label.now) frames.old) label.now a.now) }
    ensures same { OnOk result (frames.new ≡ frames.old) }
{
    let name = Bytes::from_slice(layer.alloc, label)?;
    frames.push_exit(Exit::Labelled(name))?;
    let made = under_label(layer, frames, label, a)?;
    frames.pop_exit();
    Ok(made)
}

/// `label x a`, or `label x : A a`: Motoko language manual, section "Labelled expressions".
pub fn labelled<F: Fn(&mut Frames, Part<'_>) -> Written>(
    layer: &Layer<'_, F>,
    frames: &mut Frames,
    note: Note,
    label: &[u8],
    written: &Option<TypeNode>,
    a: &Expression<Note>,
) -> Written
    requires writes { Writes layer.now.depth (F.pre layer.now.write) (F.post layer.now.write) }
    ensures made { IfOk result (λ made. made ≡ form_of layer.now.types.now frames.old note (syntax.Label label.now (annotation written.now) (expression_in layer.now.types.now a.now))) }
    ensures same { OnOk result (frames.new ≡ frames.old) }
{
    let _written = written;
    let body = labelled_body(layer, frames, label, a)?;
    at(layer.alloc, layer.types, note.kind, Form::Label(body))
}

/// The body of `do ?`, which `!` leaves.
fn option_body<F: Fn(&mut Frames, Part<'_>) -> Written>(
    layer: &Layer<'_, F>,
    frames: &mut Frames,
    a: &Expression<Note>,
) -> Written
    requires writes { Writes layer.now.depth (F.pre layer.now.write) (F.post layer.now.write) }
    ensures made { IfOk result (λ made. made ≡ tree_of layer.now.types.now (with_exit Optional frames.old) a.now) }
    ensures same { OnOk result (frames.new ≡ frames.old) }
{
    frames.push_exit(Exit::Optional)?;
    let made = layer.part(frames, a)?;
    frames.pop_exit();
    Ok(made)
}

/// `do ? { .. }`: Motoko language manual, section "Option block and null break".
pub fn do_option<F: Fn(&mut Frames, Part<'_>) -> Written>(
    layer: &Layer<'_, F>,
    frames: &mut Frames,
    note: Note,
    a: &Expression<Note>,
) -> Written
    requires writes { Writes layer.now.depth (F.pre layer.now.write) (F.post layer.now.write) }
    ensures made { IfOk result (λ made. made ≡ form_of layer.now.types.now frames.old note (syntax.DoOption (expression_in layer.now.types.now a.now))) }
    ensures same { OnOk result (frames.new ≡ frames.old) }
{
    let body = option_body(layer, frames, a)?;
    let option = operate_on(
        layer.alloc,
        layer.types,
        note.kind,
        Operation::MakeOption,
        body,
    )?;
    at(layer.alloc, layer.types, note.kind, Form::Label(option))
}
