//! Declarations that are functions.
ghost use Rattle.std.specs.Prelude.{◌≡◌, ◌++◌, OnOk, map};
ghost use Rattle.met_types.specs.States.{State};
ghost use Rattle.desugaring.specs.Pieces.{function_of};
ghost use Rattle.kernel_declarations.specs.Becoming.{becomes_of, made_in, name_of};
ghost use Rattle.kernel_parts.specs.Writing.{Writes, WritesLists};

use abstract_tree::DeclarationForm;
use kernel_frames::Frames;
use kernel_functions::function_value;
use kernel_names::Names;
use kernel_objects::class_function;
use kernel_parts::{ListPart, Lists, Part, Written, WrittenList};
use mo_num::{Bytes, Memory};
use mo_syntax::Items;
use std::alloc::Global;
use typed_tree::Function;
use value_scopes::Note;

/// Adds the name of a function or class.
pub fn push_function_name(
    alloc: Global,
    form: &DeclarationForm<Note>,
    names: &mut Names,
) -> Result<(), Memory>
    ensures { (s : State) (note : Note) → OnOk result (names.new ≡ names.old ++ map name_of (function_of (becomes_of s note form.now))) }
{
    match form {
        DeclarationForm::Let(_, _) => Ok(()),
        DeclarationForm::Var(_, _, _, _) => Ok(()),
        DeclarationForm::Func(name, _, _) => {
            let copy = Bytes::from_slice(alloc, name.bytes.as_slice())?;
            names.push(copy)
        }
        DeclarationForm::Method(_, _, _, _, _) => Ok(()),
        DeclarationForm::System(_, _) => Ok(()),
        DeclarationForm::TypeAlias(_, _, _) => Ok(()),
        DeclarationForm::Class(name, _, _) => {
            let copy = Bytes::from_slice(alloc, name.bytes.as_slice())?;
            names.push(copy)
        }
        DeclarationForm::NamedObject(_, _) => Ok(()),
        DeclarationForm::Evaluate(_) => Ok(()),
    }
}

/// Adds the function that a declaration is, if it is one: Motoko language manual, sections "Function declaration" and "Class declaration".
pub fn push_function<
    F: Fn(&mut Frames, Part<'_>) -> Written,
    G: Fn(&mut Frames, ListPart<'_>) -> WrittenList,
>(
    lists: &Lists<'_, F, G>,
    frames: &mut Frames,
    note: Note,
    form: &DeclarationForm<Note>,
    made: &mut Items<Function>,
) -> Result<(), Memory>
    requires parts { Writes lists.now.layer.depth (F.pre lists.now.layer.write) (F.post lists.now.layer.write) }
    requires writes { WritesLists lists.now.layer.depth (G.pre lists.now.write_list) (G.post lists.now.write_list) }
    ensures made { OnOk result (made.new ≡ made.old ++ map (made_in frames.old) (function_of (becomes_of lists.now.layer.types.now note form.now))) }
    ensures same { OnOk result (frames.new ≡ frames.old) }
{
    match form {
        DeclarationForm::Let(_, _) => Ok(()),
        DeclarationForm::Var(_, _, _, _) => Ok(()),
        DeclarationForm::Func(_, of, body) => {
            let function = function_value(&lists.layer, frames, of, body)?;
            made.push(function)
        }
        DeclarationForm::Method(_, _, _, _, _) => Ok(()),
        DeclarationForm::System(_, _) => Ok(()),
        DeclarationForm::TypeAlias(_, _, _) => Ok(()),
        DeclarationForm::Class(_, of, fields) => {
            let function = class_function(lists, frames, note, of, fields.as_slice())?;
            made.push(function)
        }
        DeclarationForm::NamedObject(_, _) => Ok(()),
        DeclarationForm::Evaluate(_) => Ok(()),
    }
}
