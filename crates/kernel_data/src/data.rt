//! Forms of any number of parts.
ghost use Rattle.std.specs.Prelude.{◌≡◌, ◌∷◌, true, false, IfOk, OnOk, map, option_map};
ghost use Rattle.typing_rules.specs.AbstractSyntax as syntax;
ghost use Rattle.abstract_types.specs.TypeView.{type_node};
ghost use Rattle.abstract_tree.specs.TreeView.{fields, listed, object_field};
ghost use Rattle.value_scopes.specs.Values.{noted};
ghost use Rattle.kernel_nodes.specs.Made.{cell_at};
ghost use Rattle.kernel_data.specs.Fields.{cell_number_of, cells_of, field_of, label_of};
ghost use Rattle.kernel_parts.specs.Views.{expression_in, form_of, tree_of};
ghost use Rattle.kernel_parts.specs.Writing.{Writes};

use abstract_tree::{Expression, ObjectField};
use abstract_types::TypeNode;
use kernel_frames::Frames;
use kernel_members::{call, element_number, field_number};
use kernel_nodes::{new_cell, one, operates, tuple as tuple_value};
use kernel_parts::{Layer, Part, Written};
use kernel_types::KernelTypes;
use mo_num::{Bytes, Memory, Sequence};
use mo_syntax::Items;
use mo_types::TypeId;
use mo_values::Operation;
use std::alloc::Global;
use typed_tree::TypedExpression;
use value_scopes::Note;

/// `(a, b)`: Motoko language manual, section "Tuples".
pub fn tuple<F: Fn(&mut Frames, Part<'_>) -> Written>(
    layer: &Layer<'_, F>,
    frames: &mut Frames,
    note: Note,
    items: &[Expression<Note>],
) -> Written
    requires writes { Writes layer.now.depth (F.pre layer.now.write) (F.post layer.now.write) }
    ensures made { IfOk result (λ made. made ≡ form_of layer.now.types.now frames.old note (syntax.Tuple (listed (map (expression_in layer.now.types.now) items.now)))) }
    ensures same { OnOk result (frames.new ≡ frames.old) }
{
    let parts = layer.each(frames, items)?;
    tuple_value(layer.alloc, layer.types, note.kind, parts)
}

/// The parts as new cells of the type of this number.
fn cells<F: Fn(&mut Frames, Part<'_>) -> Written>(
    layer: &Layer<'_, F>,
    frames: &mut Frames,
    of_type: TypeId,
    items: &[Expression<Note>],
) -> Result<Items<TypedExpression>, Memory>
    requires writes { Writes layer.now.depth (F.pre layer.now.write) (F.post layer.now.write) }
    ensures made { IfOk result (λ made. made ≡ map (cells_of layer.now.types.now frames.old of_type) items.now) }
    ensures same { OnOk result (frames.new ≡ frames.old) }
{
    let mut made = Items::new(layer.alloc);
    for item in items {
        let part = layer.part(frames, item)?;
        let cell = new_cell(layer.alloc, of_type, part)?;
        made.push(cell)?;
    }
    Ok(made)
}

/// `[var a, b]`
fn mutable_array<F: Fn(&mut Frames, Part<'_>) -> Written>(
    layer: &Layer<'_, F>,
    frames: &mut Frames,
    note: Note,
    items: &[Expression<Note>],
) -> Written
    requires writes { Writes layer.now.depth (F.pre layer.now.write) (F.post layer.now.write) }
    ensures made { IfOk result (λ made. made ≡ form_of layer.now.types.now frames.old note (syntax.Array true (listed (map (expression_in layer.now.types.now) items.now)))) }
    ensures same { OnOk result (frames.new ≡ frames.old) }
{
    let of_type = element_number(layer.types, note.kind)?;
    let parts = cells(layer, frames, of_type, items)?;
    operates(
        layer.alloc,
        layer.types,
        note.kind,
        Operation::MakeArray,
        parts,
    )
}

/// `[a, b]`
fn constant_array<F: Fn(&mut Frames, Part<'_>) -> Written>(
    layer: &Layer<'_, F>,
    frames: &mut Frames,
    note: Note,
    items: &[Expression<Note>],
) -> Written
    requires writes { Writes layer.now.depth (F.pre layer.now.write) (F.post layer.now.write) }
    ensures made { IfOk result (λ made. made ≡ form_of layer.now.types.now frames.old note (syntax.Array false (listed (map (expression_in layer.now.types.now) items.now)))) }
    ensures same { OnOk result (frames.new ≡ frames.old) }
{
    let parts = layer.each(frames, items)?;
    operates(
        layer.alloc,
        layer.types,
        note.kind,
        Operation::MakeArray,
        parts,
    )
}

/// `[a, b]`, or with `var` `[var a, b]`: Motoko language manual, section "Arrays".
pub fn array<F: Fn(&mut Frames, Part<'_>) -> Written>(
    layer: &Layer<'_, F>,
    frames: &mut Frames,
    note: Note,
    mutable: bool,
    items: &[Expression<Note>],
) -> Written
    requires writes { Writes layer.now.depth (F.pre layer.now.write) (F.post layer.now.write) }
    ensures made { IfOk result (λ made. made ≡ form_of layer.now.types.now frames.old note (syntax.Array mutable (listed (map (expression_in layer.now.types.now) items.now)))) }
    ensures same { OnOk result (frames.new ≡ frames.old) }
{
    if mutable {
        mutable_array(layer, frames, note, items)
    } else {
        constant_array(layer, frames, note, items)
    }
}

/// The function and the arguments of a call.
fn operands<F: Fn(&mut Frames, Part<'_>) -> Written>(
    layer: &Layer<'_, F>,
    frames: &mut Frames,
    function: &Expression<Note>,
    arguments: &[Expression<Note>],
) -> Result<Items<TypedExpression>, Memory>
    requires writes { Writes layer.now.depth (F.pre layer.now.write) (F.post layer.now.write) }
    ensures made { IfOk result (λ made. made ≡ tree_of layer.now.types.now frames.old function.now ∷ map (tree_of layer.now.types.now frames.old) arguments.now) }
    ensures same { OnOk result (frames.new ≡ frames.old) }
{
    let called = layer.part(frames, function)?;
    let mut made = one(layer.alloc, called)?;
    for argument in arguments {
        let part = layer.part(frames, argument)?;
        made.push(part)?;
    }
    Ok(made)
}

/// `f<A, B>(a, b)`: Motoko language manual, section "Function calls".
pub fn calling<F: Fn(&mut Frames, Part<'_>) -> Written>(
    layer: &Layer<'_, F>,
    frames: &mut Frames,
    note: Note,
    function: &Expression<Note>,
    types: &Option<Items<TypeNode>>,
    arguments: &[Expression<Note>],
) -> Written
    requires writes { Writes layer.now.depth (F.pre layer.now.write) (F.post layer.now.write) }
    ensures made { IfOk result (λ made. made ≡ form_of layer.now.types.now frames.old note (syntax.Call (expression_in layer.now.types.now function.now) (option_map (map type_node) types.now) (listed (map (expression_in layer.now.types.now) arguments.now)))) }
    ensures same { OnOk result (frames.new ≡ frames.old) }
{
    let _types = types;
    let parts = operands(layer, frames, function, arguments)?;
    call(
        layer.alloc,
        layer.types,
        note.kind,
        function.note.kind,
        parts,
    )
}

/// The labels of the fields.
fn labels(alloc: Global, list: &[ObjectField<Note>]) -> Result<Sequence<Bytes>, Memory>
    ensures { IfOk result (λ made. made ≡ map label_of list.now) }
{
    let mut made = Sequence::new(alloc);
    for one in list {
        made.push(Bytes::from_slice(alloc, one.name.bytes.as_slice())?)?;
    }
    Ok(made)
}

/// The number of the type of a field, which is that of its value where the object has no such field.
fn cell_number(types: &KernelTypes, note: Note, field: &ObjectField<Note>) -> Result<TypeId, Memory>
    ensures { IfOk result (λ id. id ≡ cell_number_of types.now note.kind field.now) }
{
    let found = field_number(types, note.kind, field.name.bytes.as_slice())?;
    match found {
        Some(of_type) => Ok(of_type),
        None => types.number(field.value.note.kind),
    }
}

/// A new cell of the type of a field.
fn field_cell(
    alloc: Global,
    types: &KernelTypes,
    note: Note,
    field: &ObjectField<Note>,
    value: TypedExpression,
) -> Written
    ensures { IfOk result (λ made. made ≡ cell_at (cell_number_of types.now note.kind field.now) value) }
{
    let of_type = cell_number(types, note, field)?;
    new_cell(alloc, of_type, value)
}

/// The value of a field, which is a new cell where it is a `var` field.
fn field_value<F: Fn(&mut Frames, Part<'_>) -> Written>(
    layer: &Layer<'_, F>,
    frames: &mut Frames,
    note: Note,
    field: &ObjectField<Note>,
) -> Written
    requires writes { Writes layer.now.depth (F.pre layer.now.write) (F.post layer.now.write) }
    ensures made { IfOk result (λ made. made ≡ field_of layer.now.types.now frames.old note.kind field.now) }
    ensures same { OnOk result (frames.new ≡ frames.old) }
{
    let part = layer.part(frames, &field.value)?;
    if field.mutable {
        field_cell(layer.alloc, layer.types, note, field, part)
    } else {
        Ok(part)
    }
}

/// The values of the fields.
fn field_values<F: Fn(&mut Frames, Part<'_>) -> Written>(
    layer: &Layer<'_, F>,
    frames: &mut Frames,
    note: Note,
    list: &[ObjectField<Note>],
) -> Result<Items<TypedExpression>, Memory>
    requires writes { Writes layer.now.depth (F.pre layer.now.write) (F.post layer.now.write) }
    ensures made { IfOk result (λ made. made ≡ map (field_of layer.now.types.now frames.old note.kind) list.now) }
    ensures same { OnOk result (frames.new ≡ frames.old) }
{
    let mut made = Items::new(layer.alloc);
    for field in list {
        let value = field_value(layer, frames, note, field)?;
        made.push(value)?;
    }
    Ok(made)
}

/// `{ x = a; var y : A = b }`: Motoko language manual, section "Objects".
pub fn object<F: Fn(&mut Frames, Part<'_>) -> Written>(
    layer: &Layer<'_, F>,
    frames: &mut Frames,
    note: Note,
    list: &[ObjectField<Note>],
) -> Written
    requires writes { Writes layer.now.depth (F.pre layer.now.write) (F.post layer.now.write) }
    ensures made { IfOk result (λ made. made ≡ form_of layer.now.types.now frames.old note (syntax.Object (fields (map (object_field (noted layer.now.types.now.forms)) list.now)))) }
    ensures same { OnOk result (frames.new ≡ frames.old) }
{
    let names = labels(layer.alloc, list)?;
    let parts = field_values(layer, frames, note, list)?;
    operates(
        layer.alloc,
        layer.types,
        note.kind,
        Operation::MakeObject(names),
        parts,
    )
}
