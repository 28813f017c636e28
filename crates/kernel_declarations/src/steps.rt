//! Declarations that are evaluated, as steps with the names that they bind.
ghost use Rattle.std.specs.Prelude.{◌≡◌, IfOk, OnOk};
ghost use Rattle.typing_rules.specs.AbstractSyntax as syntax;
ghost use Rattle.kernel_declarations.specs.Becoming.{IsWritten, becomes_in, becomes_of, bound_in, let_becomes, let_in, object_becomes, object_step_in, value_becomes, variable_becomes, variable_in};
ghost use Rattle.kernel_parts.specs.Writing.{Writes, WritesLists};

use abstract_tree::{Declaration, DeclarationForm, Expression};
use abstract_types::Pattern;
use kernel_frames::Frames;
use kernel_objects::object_block;
use kernel_parts::{Layer, ListPart, Lists, Part, Written, WrittenList};
use kernel_patterns::kernel_pattern;
use kernel_scopes::enter_pattern;
use kernel_types::KernelTypes;
use mo_num::Memory;
use mo_syntax::{Items, Node, Place};
use std::alloc::Global;
use type_terms::TermId;
use typed_tree::{PatternForm, Step, TypedPattern};
use value_scopes::Note;

fn let_step<F: Fn(&mut Frames, Part<'_>) -> Written>(
    layer: &Layer<'_, F>,
    frames: &mut Frames,
    q: &Pattern<Note>,
    a: &Expression<Note>,
) -> Result<Step, Memory>
    requires writes { Writes layer.now.depth (F.pre layer.now.write) (F.post layer.now.write) }
    ensures made { IfOk result (λ made. made ≡ let_in layer.now.types.now frames.old q.now a.now) }
    ensures same { OnOk result (frames.new ≡ frames.old) }
{
    let pattern = kernel_pattern(layer.alloc, layer.types, q)?;
    let value = layer.part(frames, a)?;
    Ok(Step::Let(pattern, value))
}

/// `let p = a`: Motoko language manual, section "Let declaration".
fn write_let<F: Fn(&mut Frames, Part<'_>) -> Written>(
    layer: &Layer<'_, F>,
    frames: &mut Frames,
    q: &Pattern<Note>,
    a: &Expression<Note>,
    steps: &mut Items<Step>,
) -> Result<(), Memory>
    requires writes { Writes layer.now.depth (F.pre layer.now.write) (F.post layer.now.write) }
    ensures { OnOk result (IsWritten (let_becomes layer.now.types.now q.now a.now) steps.old frames.old steps.new frames.new) }
{
    let step = let_step(layer, frames, q, a)?;
    enter_pattern(layer.alloc, frames, q)?;
    steps.push(step)
}

fn variable_step<F: Fn(&mut Frames, Part<'_>) -> Written>(
    layer: &Layer<'_, F>,
    frames: &mut Frames,
    stable: bool,
    name: &[u8],
    a: &Expression<Note>,
) -> Result<Step, Memory>
    requires writes { Writes layer.now.depth (F.pre layer.now.write) (F.post layer.now.write) }
    ensures made { IfOk result (λ made. made ≡ variable_in layer.now.types.now frames.old stable name.now a.now) }
    ensures same { OnOk result (frames.new ≡ frames.old) }
{
    let kept = frames.find_kept(name);
    let value = layer.part(frames, a)?;
    if stable {
        Ok(Step::Stable(kept, value))
    } else {
        Ok(Step::Var(value))
    }
}

/// `var x = a`, or with `stable` before it: Motoko language manual, section "Var declaration".
fn write_variable<F: Fn(&mut Frames, Part<'_>) -> Written>(
    layer: &Layer<'_, F>,
    frames: &mut Frames,
    stable: bool,
    name: &[u8],
    a: &Expression<Note>,
    steps: &mut Items<Step>,
) -> Result<(), Memory>
    requires writes { Writes layer.now.depth (F.pre layer.now.write) (F.post layer.now.write) }
    ensures { OnOk result (IsWritten (variable_becomes layer.now.types.now stable name.now a.now) steps.old frames.old steps.new frames.new) }
{
    let step = variable_step(layer, frames, stable, name, a)?;
    frames.push_cell(name)?;
    steps.push(step)
}

/// A name at a type.
fn bound(alloc: Global, types: &KernelTypes, kind: TermId) -> Result<TypedPattern, Memory>
    ensures { IfOk result (λ made. made ≡ bound_in types.now kind) }
{
    let of_type = types.number(kind)?;
    let place = Place { start: 0, end: 0 };
    let form = Node::new(alloc, place, PatternForm::Bind)?;
    Ok(TypedPattern { of_type, form })
}

fn object_step<
    F: Fn(&mut Frames, Part<'_>) -> Written,
    G: Fn(&mut Frames, ListPart<'_>) -> WrittenList,
>(
    lists: &Lists<'_, F, G>,
    frames: &mut Frames,
    note: Note,
    fields: &[Declaration<Note>],
) -> Result<Step, Memory>
    requires writes { WritesLists lists.now.layer.depth (G.pre lists.now.write_list) (G.post lists.now.write_list) }
    ensures made { IfOk result (λ made. made ≡ object_step_in lists.now.layer.types.now frames.old note fields.now) }
    ensures same { OnOk result (frames.new ≡ frames.old) }
{
    let pattern = bound(lists.layer.alloc, lists.layer.types, note.kind)?;
    let value = object_block(lists, frames, note, fields)?;
    Ok(Step::Let(pattern, value))
}

/// `object x { .. }`: Motoko language manual, section "Object declaration".
fn write_object<
    F: Fn(&mut Frames, Part<'_>) -> Written,
    G: Fn(&mut Frames, ListPart<'_>) -> WrittenList,
>(
    lists: &Lists<'_, F, G>,
    frames: &mut Frames,
    note: Note,
    name: &[u8],
    fields: &[Declaration<Note>],
    steps: &mut Items<Step>,
) -> Result<(), Memory>
    requires writes { WritesLists lists.now.layer.depth (G.pre lists.now.write_list) (G.post lists.now.write_list) }
    ensures { OnOk result (IsWritten (object_becomes lists.now.layer.types.now note name.now fields.now) steps.old frames.old steps.new frames.new) }
{
    let step = object_step(lists, frames, note, fields)?;
    frames.push_value(name)?;
    steps.push(step)
}

/// An expression whose value is not looked at.
fn write_evaluated<F: Fn(&mut Frames, Part<'_>) -> Written>(
    layer: &Layer<'_, F>,
    frames: &mut Frames,
    a: &Expression<Note>,
    steps: &mut Items<Step>,
) -> Result<(), Memory>
    requires writes { Writes layer.now.depth (F.pre layer.now.write) (F.post layer.now.write) }
    ensures { OnOk result (IsWritten (value_becomes layer.now.types.now a.now) steps.old frames.old steps.new frames.new) }
{
    let value = layer.part(frames, a)?;
    steps.push(Step::Evaluate(value))
}

/// A declaration of this form. A function has no step of its own.
fn write_form<
    F: Fn(&mut Frames, Part<'_>) -> Written,
    G: Fn(&mut Frames, ListPart<'_>) -> WrittenList,
>(
    lists: &Lists<'_, F, G>,
    frames: &mut Frames,
    note: Note,
    form: &DeclarationForm<Note>,
    steps: &mut Items<Step>,
) -> Result<(), Memory>
    requires parts { Writes lists.now.layer.depth (F.pre lists.now.layer.write) (F.post lists.now.layer.write) }
    requires writes { WritesLists lists.now.layer.depth (G.pre lists.now.write_list) (G.post lists.now.write_list) }
    ensures { OnOk result (IsWritten (becomes_of lists.now.layer.types.now note form.now) steps.old frames.old steps.new frames.new) }
{
    match form {
        DeclarationForm::Let(q, a) => write_let(&lists.layer, frames, q, a, steps),
        DeclarationForm::Var(stable, name, _, a) => write_variable(
            &lists.layer,
            frames,
            *stable,
            name.bytes.as_slice(),
            a,
            steps,
        ),
        DeclarationForm::Func(_, _, _) => Ok(()),
        DeclarationForm::Method(_, _, _, _, _) => Ok(()),
        DeclarationForm::System(_, _) => Ok(()),
        DeclarationForm::TypeAlias(_, _, _) => Ok(()),
        DeclarationForm::Class(_, _, _) => Ok(()),
        DeclarationForm::NamedObject(name, fields) => write_object(
            lists,
            frames,
            note,
            name.bytes.as_slice(),
            fields.as_slice(),
            steps,
        ),
        DeclarationForm::Evaluate(a) => write_evaluated(&lists.layer, frames, a, steps),
    }
}

/// Adds the step of a declaration that is evaluated and is not the value of its list, and then its names: Motoko language manual, section
/// "Declarations". Functions, methods and types have no step.
pub fn write_declaration<
    F: Fn(&mut Frames, Part<'_>) -> Written,
    G: Fn(&mut Frames, ListPart<'_>) -> WrittenList,
>(
    lists: &Lists<'_, F, G>,
    frames: &mut Frames,
    declaration: &Declaration<Note>,
    steps: &mut Items<Step>,
) -> Result<(), Memory>
    requires parts { Writes lists.now.layer.depth (F.pre lists.now.layer.write) (F.post lists.now.layer.write) }
    requires writes { WritesLists lists.now.layer.depth (G.pre lists.now.write_list) (G.post lists.now.write_list) }
    ensures { OnOk result (IsWritten (becomes_in lists.now.layer.types.now declaration.now) steps.old frames.old steps.new frames.new) }
{
    write_form(
        lists,
        frames,
        declaration.note,
        declaration.form.get(),
        steps,
    )
}
