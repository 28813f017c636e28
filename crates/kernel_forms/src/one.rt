//! Forms of one part.
ghost use Rattle.std.specs.Prelude.{◌≡◌, IfOk, OnOk};
ghost use Rattle.typing_rules.specs.AbstractSyntax as syntax;
ghost use Rattle.abstract_types.specs.TypeView.{type_node};
ghost use Rattle.kernel_parts.specs.Views.{expression_in, form_of};
ghost use Rattle.kernel_parts.specs.Writing.{Writes};

use abstract_tree::Expression;
use abstract_types::TypeNode;
use kernel_frames::{Frames, Leaving};
use kernel_members::member as member_of;
use kernel_nodes::{
    act_on, at, ignored, leaves, operate_on, project, tagged as tagged_value, widened,
};
use kernel_parts::{Layer, Part, Written};
use mo_values::Operation;
use typed_tree::{Action, Form};
use value_scopes::Note;

/// `? a`: Motoko language manual, section "Options".
pub fn option_of<F: Fn(&mut Frames, Part<'_>) -> Written>(
    layer: &Layer<'_, F>,
    frames: &mut Frames,
    note: Note,
    a: &Expression<Note>,
) -> Written
    requires writes { Writes layer.now.depth (F.pre layer.now.write) (F.post layer.now.write) }
    ensures made { IfOk result (λ made. made ≡ form_of layer.now.types.now frames.old note (syntax.Optional (expression_in layer.now.types.now a.now))) }
    ensures same { OnOk result (frames.new ≡ frames.old) }
{
    let part = layer.part(frames, a)?;
    operate_on(
        layer.alloc,
        layer.types,
        note.kind,
        Operation::MakeOption,
        part,
    )
}

/// `not a`: Motoko language manual, section "Unary operators".
pub fn negation<F: Fn(&mut Frames, Part<'_>) -> Written>(
    layer: &Layer<'_, F>,
    frames: &mut Frames,
    note: Note,
    a: &Expression<Note>,
) -> Written
    requires writes { Writes layer.now.depth (F.pre layer.now.write) (F.post layer.now.write) }
    ensures made { IfOk result (λ made. made ≡ form_of layer.now.types.now frames.old note (syntax.Not (expression_in layer.now.types.now a.now))) }
    ensures same { OnOk result (frames.new ≡ frames.old) }
{
    let part = layer.part(frames, a)?;
    operate_on(layer.alloc, layer.types, note.kind, Operation::Not, part)
}

/// `assert a`: Motoko language manual, section "Assert".
pub fn assertion<F: Fn(&mut Frames, Part<'_>) -> Written>(
    layer: &Layer<'_, F>,
    frames: &mut Frames,
    note: Note,
    a: &Expression<Note>,
) -> Written
    requires writes { Writes layer.now.depth (F.pre layer.now.write) (F.post layer.now.write) }
    ensures made { IfOk result (λ made. made ≡ form_of layer.now.types.now frames.old note (syntax.Assert (expression_in layer.now.types.now a.now))) }
    ensures same { OnOk result (frames.new ≡ frames.old) }
{
    let part = layer.part(frames, a)?;
    operate_on(layer.alloc, layer.types, note.kind, Operation::Assert, part)
}

/// `throw a`: Motoko language manual, section "Throw".
pub fn throwing<F: Fn(&mut Frames, Part<'_>) -> Written>(
    layer: &Layer<'_, F>,
    frames: &mut Frames,
    note: Note,
    a: &Expression<Note>,
) -> Written
    requires writes { Writes layer.now.depth (F.pre layer.now.write) (F.post layer.now.write) }
    ensures made { IfOk result (λ made. made ≡ form_of layer.now.types.now frames.old note (syntax.Throw (expression_in layer.now.types.now a.now))) }
    ensures same { OnOk result (frames.new ≡ frames.old) }
{
    let part = layer.part(frames, a)?;
    act_on(layer.alloc, layer.types, note.kind, Action::Throw, part)
}

/// `await a`: Motoko language manual, section "Await".
pub fn awaiting<F: Fn(&mut Frames, Part<'_>) -> Written>(
    layer: &Layer<'_, F>,
    frames: &mut Frames,
    note: Note,
    a: &Expression<Note>,
) -> Written
    requires writes { Writes layer.now.depth (F.pre layer.now.write) (F.post layer.now.write) }
    ensures made { IfOk result (λ made. made ≡ form_of layer.now.types.now frames.old note (syntax.Await (expression_in layer.now.types.now a.now))) }
    ensures same { OnOk result (frames.new ≡ frames.old) }
{
    let part = layer.part(frames, a)?;
    act_on(layer.alloc, layer.types, note.kind, Action::Await, part)
}

/// `a : A`: Motoko language manual, section "Type annotation".
pub fn annotated<F: Fn(&mut Frames, Part<'_>) -> Written>(
    layer: &Layer<'_, F>,
    frames: &mut Frames,
    note: Note,
    a: &Expression<Note>,
    written: &TypeNode,
) -> Written
    requires writes { Writes layer.now.depth (F.pre layer.now.write) (F.post layer.now.write) }
    ensures made { IfOk result (λ made. made ≡ form_of layer.now.types.now frames.old note (syntax.Annotated (expression_in layer.now.types.now a.now) (type_node written.now))) }
    ensures same { OnOk result (frames.new ≡ frames.old) }
{
    let part = layer.part(frames, a)?;
    widened(layer.alloc, layer.types, note.kind, part)
}

/// `ignore a`: Motoko language manual, section "Ignore".
pub fn ignoring<F: Fn(&mut Frames, Part<'_>) -> Written>(
    layer: &Layer<'_, F>,
    frames: &mut Frames,
    note: Note,
    a: &Expression<Note>,
) -> Written
    requires writes { Writes layer.now.depth (F.pre layer.now.write) (F.post layer.now.write) }
    ensures made { IfOk result (λ made. made ≡ form_of layer.now.types.now frames.old note (syntax.Ignore (expression_in layer.now.types.now a.now))) }
    ensures same { OnOk result (frames.new ≡ frames.old) }
{
    let part = layer.part(frames, a)?;
    ignored(layer.alloc, layer.types, note.kind, part)
}

/// `#x a`: Motoko language manual, section "Variants".
pub fn tagged<F: Fn(&mut Frames, Part<'_>) -> Written>(
    layer: &Layer<'_, F>,
    frames: &mut Frames,
    note: Note,
    name: &[u8],
    a: &Expression<Note>,
) -> Written
    requires writes { Writes layer.now.depth (F.pre layer.now.write) (F.post layer.now.write) }
    ensures made { IfOk result (λ made. made ≡ form_of layer.now.types.now frames.old note (syntax.Tagged name.now (expression_in layer.now.types.now a.now))) }
    ensures same { OnOk result (frames.new ≡ frames.old) }
{
    let part = layer.part(frames, a)?;
    tagged_value(layer.alloc, layer.types, note.kind, name, part)
}

/// `a.0`: Motoko language manual, section "Tuples".
pub fn projection<F: Fn(&mut Frames, Part<'_>) -> Written>(
    layer: &Layer<'_, F>,
    frames: &mut Frames,
    note: Note,
    a: &Expression<Note>,
    number: u64,
) -> Written
    requires writes { Writes layer.now.depth (F.pre layer.now.write) (F.post layer.now.write) }
    ensures made { IfOk result (λ made. made ≡ form_of layer.now.types.now frames.old note (syntax.Projection (expression_in layer.now.types.now a.now) number)) }
    ensures same { OnOk result (frames.new ≡ frames.old) }
{
    let part = layer.part(frames, a)?;
    project(layer.alloc, layer.types, note.kind, number, part)
}

/// `a!`: Motoko language manual, section "Option block and null break".
pub fn bang<F: Fn(&mut Frames, Part<'_>) -> Written>(
    layer: &Layer<'_, F>,
    frames: &mut Frames,
    note: Note,
    a: &Expression<Note>,
) -> Written
    requires writes { Writes layer.now.depth (F.pre layer.now.write) (F.post layer.now.write) }
    ensures made { IfOk result (λ made. made ≡ form_of layer.now.types.now frames.old note (syntax.Bang (expression_in layer.now.types.now a.now))) }
    ensures same { OnOk result (frames.new ≡ frames.old) }
{
    let exits = frames.find_exit(Leaving::Optional);
    let part = layer.part(frames, a)?;
    act_on(
        layer.alloc,
        layer.types,
        note.kind,
        Action::Unwrap(exits),
        part,
    )
}

/// `break x a`: Motoko language manual, section "Break".
pub fn breaking_with<F: Fn(&mut Frames, Part<'_>) -> Written>(
    layer: &Layer<'_, F>,
    frames: &mut Frames,
    note: Note,
    name: &[u8],
    a: &Expression<Note>,
) -> Written
    requires writes { Writes layer.now.depth (F.pre layer.now.write) (F.post layer.now.write) }
    ensures made { IfOk result (λ made. made ≡ form_of layer.now.types.now frames.old note (syntax.BreakWith name.now (expression_in layer.now.types.now a.now))) }
    ensures same { OnOk result (frames.new ≡ frames.old) }
{
    let exits = frames.find_exit(Leaving::Label(name));
    let part = layer.part(frames, a)?;
    leaves(layer.alloc, layer.types, note.kind, exits, part)
}

/// `return a`: Motoko language manual, section "Return".
pub fn returning_with<F: Fn(&mut Frames, Part<'_>) -> Written>(
    layer: &Layer<'_, F>,
    frames: &mut Frames,
    note: Note,
    a: &Expression<Note>,
) -> Written
    requires writes { Writes layer.now.depth (F.pre layer.now.write) (F.post layer.now.write) }
    ensures made { IfOk result (λ made. made ≡ form_of layer.now.types.now frames.old note (syntax.ReturnWith (expression_in layer.now.types.now a.now))) }
    ensures same { OnOk result (frames.new ≡ frames.old) }
{
    let exits = frames.find_exit(Leaving::Function);
    let part = layer.part(frames, a)?;
    leaves(layer.alloc, layer.types, note.kind, exits, part)
}

/// `a.x`: Motoko language manual, section "Object projection (Member access)".
pub fn member<F: Fn(&mut Frames, Part<'_>) -> Written>(
    layer: &Layer<'_, F>,
    frames: &mut Frames,
    note: Note,
    a: &Expression<Note>,
    name: &[u8],
) -> Written
    requires writes { Writes layer.now.depth (F.pre layer.now.write) (F.post layer.now.write) }
    ensures made { IfOk result (λ made. made ≡ form_of layer.now.types.now frames.old note (syntax.Member (expression_in layer.now.types.now a.now) name.now)) }
    ensures same { OnOk result (frames.new ≡ frames.old) }
{
    let part = layer.part(frames, a)?;
    member_of(layer.alloc, layer.types, note.kind, name, a.note.kind, part)
}

/// `loop a`: Motoko language manual, section "Loop".
pub fn endless_loop<F: Fn(&mut Frames, Part<'_>) -> Written>(
    layer: &Layer<'_, F>,
    frames: &mut Frames,
    note: Note,
    a: &Expression<Note>,
) -> Written
    requires writes { Writes layer.now.depth (F.pre layer.now.write) (F.post layer.now.write) }
    ensures made { IfOk result (λ made. made ≡ form_of layer.now.types.now frames.old note (syntax.Loop (expression_in layer.now.types.now a.now))) }
    ensures same { OnOk result (frames.new ≡ frames.old) }
{
    let part = layer.part(frames, a)?;
    at(layer.alloc, layer.types, note.kind, Form::Loop(part))
}
