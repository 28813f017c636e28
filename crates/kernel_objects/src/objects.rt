//! Blocks, and objects of declarations.
ghost use Rattle.std.specs.Prelude.{◌≡◌, IfOk, OnOk};
ghost use Rattle.typing_rules.specs.AbstractSyntax as syntax;
ghost use Rattle.desugaring.specs.Expressions.{or_else};
ghost use Rattle.kernel_nodes.specs.Made.{unit_in};
ghost use Rattle.kernel_parts.specs.Views.{form_of, list_in};
ghost use Rattle.kernel_parts.specs.Writing.{WritesLists};
ghost use Rattle.kernel_objects.specs.Objects.{block_at, object_at};

use crate::names::object_names;
use crate::operands::operands;
use abstract_tree::Declaration;
use kernel_frames::Frames;
use kernel_nodes::{at, operates, unit_value};
use kernel_parts::{Arranged, ListPart, Lists, Written, WrittenList};
use kernel_types::KernelTypes;
use mo_num::Memory;
use mo_syntax::Items;
use mo_values::Operation;
use std::alloc::Global;
use std::mem;
use type_terms::TermId;
use typed_tree::{Form, Step, TypedExpression};
use value_scopes::Note;

/// The steps of a list and its value.
fn parts(alloc: Global, list: Arranged) -> (Items<Step>, Option<TypedExpression>)
    ensures steps { result.0 ≡ list.steps }
    ensures last { result.1 ≡ list.last }
{
    let mut list = list;
    let last = list.last.take();
    let steps = mem::replace(&mut list.steps, Items::new(alloc));
    (steps, last)
}

/// The value, or `()`.
fn or_unit(
    alloc: Global,
    types: &KernelTypes,
    last: Option<TypedExpression>,
) -> Result<TypedExpression, Memory>
    ensures { IfOk result (λ made. made ≡ or_else (unit_in types.now) last) }
{
    match last {
        Some(value) => Ok(value),
        None => unit_value(alloc, types),
    }
}

/// A list as a block.
fn block_value(
    alloc: Global,
    types: &KernelTypes,
    kind: TermId,
    list: Arranged,
) -> Result<TypedExpression, Memory>
    ensures { IfOk result (λ made. made ≡ block_at types.now kind list.steps list.last) }
{
    let (steps, last) = parts(alloc, list);
    let value = or_unit(alloc, types, last)?;
    at(alloc, types, kind, Form::Block(steps, value))
}

/// `{ .. }`: Motoko language manual, section "Blocks". A block without a last expression is `()`.
pub fn block<F, G: Fn(&mut Frames, ListPart<'_>) -> WrittenList>(
    lists: &Lists<'_, F, G>,
    frames: &mut Frames,
    note: Note,
    declarations: &[Declaration<Note>],
) -> Written
    requires writes { WritesLists lists.now.layer.depth (G.pre lists.now.write_list) (G.post lists.now.write_list) }
    ensures made { IfOk result (λ made. made ≡ form_of lists.now.layer.types.now frames.old note (syntax.Block (list_in lists.now.layer.types.now declarations.now))) }
    ensures same { OnOk result (frames.new ≡ frames.old) }
{
    let mark = frames.mark();
    let list = lists.list(frames, true, declarations)?;
    frames.truncate(mark);
    block_value(lists.layer.alloc, lists.layer.types, note.kind, list)
}

/// The object whose fields are the public names of a list, behind the steps of the list.
fn object_value(
    alloc: Global,
    types: &KernelTypes,
    frames: &Frames,
    kind: TermId,
    steps: Items<Step>,
    fields: &[Declaration<Note>],
) -> Result<TypedExpression, Memory>
    ensures { IfOk result (λ made. made ≡ object_at types.now frames.now kind steps fields.now) }
{
    let names = object_names(alloc, fields)?;
    let values = operands(alloc, types, frames, kind, names.as_slice())?;
    let object = operates(alloc, types, kind, Operation::MakeObject(names), values)?;
    at(alloc, types, kind, Form::Block(steps, object))
}

/// `object { .. }`: Motoko language manual, section "Objects".
pub fn object_block<F, G: Fn(&mut Frames, ListPart<'_>) -> WrittenList>(
    lists: &Lists<'_, F, G>,
    frames: &mut Frames,
    note: Note,
    fields: &[Declaration<Note>],
) -> Written
    requires writes { WritesLists lists.now.layer.depth (G.pre lists.now.write_list) (G.post lists.now.write_list) }
    ensures made { IfOk result (λ made. made ≡ form_of lists.now.layer.types.now frames.old note (syntax.ObjectBlock (list_in lists.now.layer.types.now fields.now))) }
    ensures same { OnOk result (frames.new ≡ frames.old) }
{
    let mark = frames.mark();
    let list = lists.list(frames, false, fields)?;
    let (steps, _) = parts(lists.layer.alloc, list);
    let made = object_value(
        lists.layer.alloc,
        lists.layer.types,
        frames,
        note.kind,
        steps,
        fields,
    )?;
    frames.truncate(mark);
    Ok(made)
}
