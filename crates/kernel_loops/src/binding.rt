//! Forms that bind names by patterns.
ghost use Rattle.std.specs.Prelude.{◌≡◌, IfOk, OnOk, map};
ghost use Rattle.typing_rules.specs.AbstractSyntax as syntax;
ghost use Rattle.abstract_tree.specs.TreeView.{case, cases};
ghost use Rattle.value_scopes.specs.Values.{noted};
ghost use Rattle.kernel_parts.specs.Views.{expression_in, form_of};
ghost use Rattle.kernel_parts.specs.Writing.{Writes};
ghost use Rattle.kernel_scopes.specs.Bound.{pattern_in};
ghost use Rattle.kernel_loops.specs.Loops.{case_of};

use abstract_tree::{Case, Expression};
use abstract_types::Pattern;
use kernel_frames::Frames;
use kernel_nodes::at;
use kernel_parts::{Layer, Part, Written};
use kernel_patterns::kernel_pattern;
use kernel_scopes::with_pattern;
use mo_num::Memory;
use mo_syntax::Items;
use typed_tree::Form;
use value_scopes::Note;

/// `try a catch p b`: Motoko language manual, section "Try".
pub fn trying<F: Fn(&mut Frames, Part<'_>) -> Written>(
    layer: &Layer<'_, F>,
    frames: &mut Frames,
    note: Note,
    a: &Expression<Note>,
    q: &Pattern<Note>,
    b: &Expression<Note>,
) -> Written
    requires writes { Writes layer.now.depth (F.pre layer.now.write) (F.post layer.now.write) }
    ensures made { IfOk result (λ made. made ≡ form_of layer.now.types.now frames.old note (syntax.Try (expression_in layer.now.types.now a.now) (pattern_in layer.now.types.now q.now) (expression_in layer.now.types.now b.now))) }
    ensures same { OnOk result (frames.new ≡ frames.old) }
{
    let body = layer.part(frames, a)?;
    let pattern = kernel_pattern(layer.alloc, layer.types, q)?;
    let handler = with_pattern(layer, frames, q, b)?;
    at(
        layer.alloc,
        layer.types,
        note.kind,
        Form::Try(body, pattern, handler),
    )
}

/// `for (p in a) b`: Motoko language manual, section "For".
pub fn iterating<F: Fn(&mut Frames, Part<'_>) -> Written>(
    layer: &Layer<'_, F>,
    frames: &mut Frames,
    note: Note,
    q: &Pattern<Note>,
    a: &Expression<Note>,
    b: &Expression<Note>,
) -> Written
    requires writes { Writes layer.now.depth (F.pre layer.now.write) (F.post layer.now.write) }
    ensures made { IfOk result (λ made. made ≡ form_of layer.now.types.now frames.old note (syntax.For (pattern_in layer.now.types.now q.now) (expression_in layer.now.types.now a.now) (expression_in layer.now.types.now b.now))) }
    ensures same { OnOk result (frames.new ≡ frames.old) }
{
    let pattern = kernel_pattern(layer.alloc, layer.types, q)?;
    let of = layer.part(frames, a)?;
    let body = with_pattern(layer, frames, q, b)?;
    at(
        layer.alloc,
        layer.types,
        note.kind,
        Form::For(pattern, of, body),
    )
}

/// `case p a`
fn case_value<F: Fn(&mut Frames, Part<'_>) -> Written>(
    layer: &Layer<'_, F>,
    frames: &mut Frames,
    one: &Case<Note>,
) -> Result<typed_tree::Case, Memory>
    requires writes { Writes layer.now.depth (F.pre layer.now.write) (F.post layer.now.write) }
    ensures made { IfOk result (λ made. made ≡ case_of layer.now.types.now frames.old one.now) }
    ensures same { OnOk result (frames.new ≡ frames.old) }
{
    let pattern = kernel_pattern(layer.alloc, layer.types, &one.pattern)?;
    let body = with_pattern(layer, frames, &one.pattern, &one.body)?;
    Ok(typed_tree::Case { pattern, body })
}

/// The cases.
fn case_values<F: Fn(&mut Frames, Part<'_>) -> Written>(
    layer: &Layer<'_, F>,
    frames: &mut Frames,
    list: &[Case<Note>],
) -> Result<Items<typed_tree::Case>, Memory>
    requires writes { Writes layer.now.depth (F.pre layer.now.write) (F.post layer.now.write) }
    ensures made { IfOk result (λ made. made ≡ map (case_of layer.now.types.now frames.old) list.now) }
    ensures same { OnOk result (frames.new ≡ frames.old) }
{
    let mut made = Items::new(layer.alloc);
    for one in list {
        let value = case_value(layer, frames, one)?;
        made.push(value)?;
    }
    Ok(made)
}

/// `switch a { case p b; case q c }`: Motoko language manual, section "Switch".
pub fn switching<F: Fn(&mut Frames, Part<'_>) -> Written>(
    layer: &Layer<'_, F>,
    frames: &mut Frames,
    note: Note,
    a: &Expression<Note>,
    list: &[Case<Note>],
) -> Written
    requires writes { Writes layer.now.depth (F.pre layer.now.write) (F.post layer.now.write) }
    ensures made { IfOk result (λ made. made ≡ form_of layer.now.types.now frames.old note (syntax.Switch (expression_in layer.now.types.now a.now) (cases (map (case (noted layer.now.types.now.forms)) list.now)))) }
    ensures same { OnOk result (frames.new ≡ frames.old) }
{
    let of = layer.part(frames, a)?;
    let arms = case_values(layer, frames, list)?;
    at(
        layer.alloc,
        layer.types,
        note.kind,
        Form::Switch(note.at, of, arms),
    )
}
