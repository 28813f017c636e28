//! Classes.
ghost use Rattle.std.specs.Prelude.{◌≡◌, IfOk, OnOk};
ghost use Rattle.desugaring.specs.Frames.{in_function, with_names};
ghost use Rattle.met_types.specs.States.{State};
ghost use Rattle.kernel_parts.specs.Writing.{WritesLists};
ghost use Rattle.kernel_scopes.specs.Bound.{parameters_of};
ghost use Rattle.kernel_objects.specs.Objects.{class_in, class_nodes, object_in};

use crate::objects::object_block;
use abstract_tree::Declaration;
use abstract_types::Signature;
use kernel_counts::{count_list, count_patterns};
use kernel_frames::Frames;
use kernel_functions::made_function;
use kernel_parts::{ListPart, Lists, Written, WrittenList};
use kernel_scopes::enter_parameters;
use mo_num::Memory;
use typed_tree::Function;
use value_scopes::Note;

/// The nodes of a class, as they are written: the object that it makes is one of them.
fn count(of: &Signature<Note>, fields: &[Declaration<Note>]) -> Result<u32, Memory>
    ensures { (s : State) → IfOk result (λ nodes. nodes ≡ class_nodes s of.now fields.now) }
{
    let parameters = count_patterns(of.parameters.as_slice(), 1)?;
    count_list(fields, parameters)
}

/// The object that a class makes, around which the names of the parameters stand.
fn class_object<F, G: Fn(&mut Frames, ListPart<'_>) -> WrittenList>(
    lists: &Lists<'_, F, G>,
    frames: &mut Frames,
    note: Note,
    of: &Signature<Note>,
    fields: &[Declaration<Note>],
) -> Written
    requires writes { WritesLists lists.now.layer.depth (G.pre lists.now.write_list) (G.post lists.now.write_list) }
    ensures made { IfOk result (λ made. made ≡ object_in lists.now.layer.types.now (with_names (parameters_of lists.now.layer.types.now of.now.parameters) frames.old) note.kind fields.now) }
    ensures same { OnOk result (frames.new ≡ frames.old) }
{
    let mark = enter_parameters(lists.layer.alloc, frames, of.parameters.as_slice())?;
    let made = object_block(lists, frames, note, fields)?;
    frames.truncate(mark);
    Ok(made)
}

/// The body of a class.
fn class_body<F, G: Fn(&mut Frames, ListPart<'_>) -> WrittenList>(
    lists: &Lists<'_, F, G>,
    frames: &mut Frames,
    note: Note,
    of: &Signature<Note>,
    fields: &[Declaration<Note>],
) -> Written
    requires writes { WritesLists lists.now.layer.depth (G.pre lists.now.write_list) (G.post lists.now.write_list) }
    ensures made { IfOk result (λ made. made ≡ object_in lists.now.layer.types.now (in_function (parameters_of lists.now.layer.types.now of.now.parameters) frames.old) note.kind fields.now) }
    ensures same { OnOk result (frames.new ≡ frames.old) }
{
    let outer = frames.enter_function()?;
    let made = class_object(lists, frames, note, of, fields);
    frames.leave_function(outer);
    made
}

/// `class C<T>(p) { .. }` as the function that makes its objects, where the note has their type: Motoko language manual, section
/// "Classes".
pub fn class_function<F, G: Fn(&mut Frames, ListPart<'_>) -> WrittenList>(
    lists: &Lists<'_, F, G>,
    frames: &mut Frames,
    note: Note,
    of: &Signature<Note>,
    fields: &[Declaration<Note>],
) -> Result<Function, Memory>
    requires writes { WritesLists lists.now.layer.depth (G.pre lists.now.write_list) (G.post lists.now.write_list) }
    ensures made { IfOk result (λ made. made ≡ class_in lists.now.layer.types.now frames.old note.kind of.now fields.now) }
    ensures same { OnOk result (frames.new ≡ frames.old) }
{
    let nodes = count(of, fields)?;
    let made = class_body(lists, frames, note, of, fields)?;
    made_function(lists.layer.alloc, lists.layer.types, of, nodes, made)
}
