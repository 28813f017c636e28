//! Parts whose names are bound around them.
ghost use Rattle.std.specs.Prelude.{◌≡◌, IfOk, OnOk};
ghost use Rattle.desugaring.specs.Frames.{in_function, with_names};
ghost use Rattle.met_types.specs.States.{State};
ghost use Rattle.kernel_frames.specs.Places.{IsMark};
ghost use Rattle.kernel_parts.specs.Views.{tree_of};
ghost use Rattle.kernel_parts.specs.Writing.{Writes};
ghost use Rattle.kernel_scopes.specs.Bound.{continued_of, label_in, names_of, parameters_of};

use abstract_tree::Expression;
use abstract_types::Pattern;
use kernel_frames::{Exit, Frames, Mark};
use kernel_names::{Names, parameter_names, pattern_names};
use kernel_parts::{Layer, Part, Written};
use kernel_types::KernelTypes;
use mo_num::{Bytes, Memory};
use mo_syntax::{Node, Place};
use std::alloc::Global;
use typed_tree::{Form, TypedExpression};
use value_scopes::Note;

/// Goes into the scope of a pattern's names, and gives the mark to come back to.
pub fn enter_pattern(alloc: Global, frames: &mut Frames, q: &Pattern<Note>) -> Result<Mark, Memory>
    ensures mark { IfOk result (λ mark. IsMark mark frames.old.names) }
    ensures pushed { (s : State) → OnOk result (frames.new ≡ with_names (names_of s q.now) frames.old) }
{
    let mark = frames.mark();
    let mut names = Names::new(alloc);
    pattern_names(alloc, q, &mut names)?;
    frames.push_names(names.as_slice())?;
    Ok(mark)
}

/// Goes into the scope of the names of parameters, and gives the mark to come back to.
pub fn enter_parameters(
    alloc: Global,
    frames: &mut Frames,
    parameters: &[Pattern<Note>],
) -> Result<Mark, Memory>
    ensures mark { IfOk result (λ mark. IsMark mark frames.old.names) }
    ensures pushed { (s : State) → OnOk result (frames.new ≡ with_names (parameters_of s parameters.now) frames.old) }
{
    let mark = frames.mark();
    let mut names = Names::new(alloc);
    parameter_names(alloc, parameters, &mut names)?;
    frames.push_names(names.as_slice())?;
    Ok(mark)
}

/// A part around which the names of a pattern stand.
pub fn with_pattern<F: Fn(&mut Frames, Part<'_>) -> Written>(
    layer: &Layer<'_, F>,
    frames: &mut Frames,
    q: &Pattern<Note>,
    body: &Expression<Note>,
) -> Written
    requires writes { Writes layer.now.depth (F.pre layer.now.write) (F.post layer.now.write) }
    ensures made { IfOk result (λ made. made ≡ tree_of layer.now.types.now (with_names (names_of layer.now.types.now q.now) frames.old) body.now) }
    ensures same { OnOk result (frames.new ≡ frames.old) }
{
    let mark = enter_pattern(layer.alloc, frames, q)?;
    let made = layer.part(frames, body)?;
    frames.truncate(mark);
    Ok(made)
}

/// A part around which the names of parameters stand.
fn with_parameters<F: Fn(&mut Frames, Part<'_>) -> Written>(
    layer: &Layer<'_, F>,
    frames: &mut Frames,
    parameters: &[Pattern<Note>],
    body: &Expression<Note>,
) -> Written
    requires writes { Writes layer.now.depth (F.pre layer.now.write) (F.post layer.now.write) }
    ensures made { IfOk result (λ made. made ≡ tree_of layer.now.types.now (with_names (parameters_of layer.now.types.now parameters.now) frames.old) body.now) }
    ensures same { OnOk result (frames.new ≡ frames.old) }
{
    let mark = enter_parameters(layer.alloc, frames, parameters)?;
    let made = layer.part(frames, body)?;
    frames.truncate(mark);
    Ok(made)
}

/// The body of a function with these parameters.
pub fn function_body<F: Fn(&mut Frames, Part<'_>) -> Written>(
    layer: &Layer<'_, F>,
    frames: &mut Frames,
    parameters: &[Pattern<Note>],
    body: &Expression<Note>,
) -> Written
    requires writes { Writes layer.now.depth (F.pre layer.now.write) (F.post layer.now.write) }
    ensures made { IfOk result (λ made. made ≡ tree_of layer.now.types.now (in_function (parameters_of layer.now.types.now parameters.now) frames.old) body.now) }
    ensures same { OnOk result (frames.new ≡ frames.old) }
{
    let outer = frames.enter_function()?;
    let made = with_parameters(layer, frames, parameters, body);
    frames.leave_function(outer);
    made
}

/// What `continue` leaves, whose value is `()`.
fn label_at_unit(alloc: Global, types: &KernelTypes, a: TypedExpression) -> Written
    ensures { IfOk result (λ made. made ≡ label_in types.now a) }
{
    let unit = types.unit(alloc)?;
    let place = Place { start: 0, end: 0 };
    let form = Node::new(alloc, place, Form::Label(a))?;
    Ok(TypedExpression {
        of_type: unit,
        form,
    })
}

/// The body of a loop under a label, which `continue` leaves.
pub fn continued<F: Fn(&mut Frames, Part<'_>) -> Written>(
    layer: &Layer<'_, F>,
    frames: &mut Frames,
    label: &[u8],
    body: &Expression<Note>,
) -> Written
    requires writes { Writes layer.now.depth (F.pre layer.now.write) (F.post layer.now.write) }
    ensures made { IfOk result (λ made. made ≡ continued_of layer.now.types.now frames.old label.now body.now) }
    ensures same { OnOk result (frames.new ≡ frames.old) }
{
    let name = Bytes::from_slice(layer.alloc, label)?;
    frames.push_exit(Exit::Continued(name))?;
    let made = layer.part(frames, body)?;
    frames.pop_exit();
    label_at_unit(layer.alloc, layer.types, made)
}

/// The body of a `for` under a label.
pub fn continued_with<F: Fn(&mut Frames, Part<'_>) -> Written>(
    layer: &Layer<'_, F>,
    frames: &mut Frames,
    q: &Pattern<Note>,
    label: &[u8],
    body: &Expression<Note>,
) -> Written
    requires writes { Writes layer.now.depth (F.pre layer.now.write) (F.post layer.now.write) }
    ensures made { IfOk result (λ made. made ≡ continued_of layer.now.types.now (with_names (names_of layer.now.types.now q.now) frames.old) label.now body.now) }
    ensures same { OnOk result (frames.new ≡ frames.old) }
{
    let mark = enter_pattern(layer.alloc, frames, q)?;
    let made = continued(layer, frames, label, body)?;
    frames.truncate(mark);
    Ok(made)
}
