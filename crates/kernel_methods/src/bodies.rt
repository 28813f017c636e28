//! The bodies of public and system functions.
ghost use Rattle.std.specs.Prelude.{◌≡◌, ◌++◌, [], IfOk, OnOk};
ghost use Rattle.desugaring.specs.Frames.{in_function};
ghost use Rattle.judged_parts.specs.Parts.{See};
ghost use Rattle.kernel_frames.specs.Places.{IsMark};
ghost use Rattle.kernel_parts.specs.Views.{tree_of};
ghost use Rattle.kernel_parts.specs.Writing.{Writes};
ghost use Rattle.value_scopes.specs.Values.{noted};
ghost use Rattle.kernel_methods.specs.Methods.{body_in, context_names_of, with_method_names};

use abstract_tree::Expression;
use abstract_types::Pattern;
use kernel_frames::{Frames, Mark};
use kernel_names::{Names, parameter_names, pattern_names};
use kernel_outside::push_hidden_names;
use kernel_parts::{Layer, Part, Written};
use mo_num::Memory;
use std::alloc::Global;
use value_scopes::Note;

/// Adds the names that the pattern of a context binds.
fn add_context(
    alloc: Global,
    context: &Option<Pattern<Note>>,
    names: &mut Names,
) -> Result<(), Memory>
    ensures { (see : See) → OnOk result (names.new ≡ names.old ++ context_names_of see context.now) }
{
    match context {
        None => Ok(()),
        Some(q) => pattern_names(alloc, q, names),
    }
}

/// Goes into the scope of the names of a public function, and gives the mark to come back to. The names of its parameters hide those of its
/// context.
fn enter_method(
    alloc: Global,
    frames: &mut Frames,
    context: &Option<Pattern<Note>>,
    parameters: &[Pattern<Note>],
) -> Result<Mark, Memory>
    ensures mark { IfOk result (λ mark. IsMark mark frames.old.names) }
    ensures pushed { (see : See) → OnOk result (frames.new ≡ with_method_names see context.now parameters.now frames.old) }
{
    let mark = frames.mark();
    let mut hiding = Names::new(alloc);
    parameter_names(alloc, parameters, &mut hiding)?;
    let mut names = Names::new(alloc);
    add_context(alloc, context, &mut names)?;
    frames.push_names(hiding.as_slice())?;
    push_hidden_names(frames, hiding.as_slice(), names.as_slice())?;
    Ok(mark)
}

/// A part around which the names of a public function stand.
fn with_method<F: Fn(&mut Frames, Part<'_>) -> Written>(
    layer: &Layer<'_, F>,
    frames: &mut Frames,
    context: &Option<Pattern<Note>>,
    parameters: &[Pattern<Note>],
    body: &Expression<Note>,
) -> Written
    requires writes { Writes layer.now.depth (F.pre layer.now.write) (F.post layer.now.write) }
    ensures made { IfOk result (λ made. made ≡ tree_of layer.now.types.now (with_method_names (noted layer.now.types.now.forms) context.now parameters.now frames.old) body.now) }
    ensures same { OnOk result (frames.new ≡ frames.old) }
{
    let mark = enter_method(layer.alloc, frames, context, parameters)?;
    let made = layer.part(frames, body)?;
    frames.truncate(mark);
    Ok(made)
}

/// The body of a public function.
pub(crate) fn method_body<F: Fn(&mut Frames, Part<'_>) -> Written>(
    layer: &Layer<'_, F>,
    frames: &mut Frames,
    context: &Option<Pattern<Note>>,
    parameters: &[Pattern<Note>],
    body: &Expression<Note>,
) -> Written
    requires writes { Writes layer.now.depth (F.pre layer.now.write) (F.post layer.now.write) }
    ensures made { IfOk result (λ made. made ≡ body_in layer.now.types.now frames.old context.now parameters.now body.now) }
    ensures same { OnOk result (frames.new ≡ frames.old) }
{
    let outer = frames.enter_function()?;
    let made = with_method(layer, frames, context, parameters, body);
    frames.leave_function(outer);
    made
}

/// The body of a system function, which has no parameters.
pub(crate) fn system_body<F: Fn(&mut Frames, Part<'_>) -> Written>(
    layer: &Layer<'_, F>,
    frames: &mut Frames,
    body: &Expression<Note>,
) -> Written
    requires writes { Writes layer.now.depth (F.pre layer.now.write) (F.post layer.now.write) }
    ensures made { IfOk result (λ made. made ≡ tree_of layer.now.types.now (in_function [] frames.old) body.now) }
    ensures same { OnOk result (frames.new ≡ frames.old) }
{
    let outer = frames.enter_function()?;
    let made = layer.part(frames, body);
    frames.leave_function(outer);
    made
}
