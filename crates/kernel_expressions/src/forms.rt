//! The writing out of an expression, by its form.
ghost use Rattle.std.specs.Prelude.{◌≡◌, IfOk, OnOk};
ghost use Rattle.abstract_tree.specs.TreeView.{expression_form};
ghost use Rattle.value_scopes.specs.Values.{noted};
ghost use Rattle.kernel_parts.specs.Views.{form_of};
ghost use Rattle.kernel_parts.specs.Writing.{Writes, WritesLists};

use abstract_tree::ExpressionForm;
use kernel_choices::{
    assign, assign_by, binary, conditional, index, loop_while, negative, when, while_loop,
};
use kernel_data::{array, calling, object, tuple};
use kernel_forms::{
    actor_reference, annotated, assertion, awaiting, bang, breaking, breaking_with,
    built_in_member, constant, continuing, endless_loop, ignoring, member, name as name_value,
    negation, option_of, projection, returning, returning_with, tag, tagged, throwing,
};
use kernel_frames::Frames;
use kernel_functions::function;
use kernel_loops::{do_option, iterating, labelled, switching, trying};
use kernel_objects::{block, object_block};
use kernel_parts::{ListPart, Lists, Part, Written, WrittenList};
use value_scopes::Note;

/// An expression of this form, with the writing out of its parts and of its lists of declarations: Motoko language manual, section
/// "Expressions".
pub(crate) fn by_form<
    F: Fn(&mut Frames, Part<'_>) -> Written,
    G: Fn(&mut Frames, ListPart<'_>) -> WrittenList,
>(lists: &Lists<'_, F, G>, frames: &mut Frames, note: Note, form: &ExpressionForm<Note>) -> Written
    requires writes { Writes lists.now.layer.depth (F.pre lists.now.layer.write) (F.post lists.now.layer.write) }
    requires lists { WritesLists lists.now.layer.depth (G.pre lists.now.write_list) (G.post lists.now.write_list) }
    ensures made { IfOk result (λ made. made ≡ form_of lists.now.layer.types.now frames.old note (expression_form (noted lists.now.layer.types.now.forms) form.now)) }
    ensures same { OnOk result (frames.new ≡ frames.old) }
{
    let layer = &lists.layer;
    match form {
        ExpressionForm::Constant(literal) => constant(layer.alloc, layer.types, note, literal),
        ExpressionForm::Name(name) => name_value(
            layer.alloc,
            layer.types,
            frames,
            note,
            name.as_slice(),
        ),
        ExpressionForm::Tuple(items) => tuple(layer, frames, note, items.as_slice()),
        ExpressionForm::Optional(a) => option_of(layer, frames, note, a),
        ExpressionForm::Tag(name) => tag(layer.alloc, layer.types, note, name.as_slice()),
        ExpressionForm::Tagged(name, a) => tagged(layer, frames, note, name.as_slice(), a),
        ExpressionForm::Array(mutable, items) => array(
            layer,
            frames,
            note,
            *mutable,
            items.as_slice(),
        ),
        ExpressionForm::Object(fields) => object(layer, frames, note, fields.as_slice()),
        ExpressionForm::Member(a, name) => member(layer, frames, note, a, name.as_slice()),
        ExpressionForm::Projection(a, number) => projection(layer, frames, note, a, *number),
        ExpressionForm::Index(a, i) => index(layer, frames, note, a, i),
        ExpressionForm::Annotated(a, written) => annotated(layer, frames, note, a, written),
        ExpressionForm::Negative(a) => negative(layer, frames, note, a),
        ExpressionForm::Binary(operator, a, b) => binary(layer, frames, note, *operator, a, b),
        ExpressionForm::Not(a) => negation(layer, frames, note, a),
        ExpressionForm::Assign(to, a) => assign(layer, frames, note, to, a),
        ExpressionForm::AssignBy(operator, to, a) => assign_by(
            layer, frames, note, *operator, to, a,
        ),
        ExpressionForm::Call(called, types, arguments) => calling(
            layer,
            frames,
            note,
            called,
            types,
            arguments.as_slice(),
        ),
        ExpressionForm::When(condition, a) => when(layer, frames, note, condition, a),
        ExpressionForm::If(condition, a, b) => conditional(layer, frames, note, condition, a, b),
        ExpressionForm::Switch(a, cases) => switching(layer, frames, note, a, cases.as_slice()),
        ExpressionForm::Try(a, pattern, b) => trying(layer, frames, note, a, pattern, b),
        ExpressionForm::While(condition, a) => while_loop(layer, frames, note, condition, a),
        ExpressionForm::Loop(a) => endless_loop(layer, frames, note, a),
        ExpressionForm::LoopWhile(a, condition) => loop_while(layer, frames, note, a, condition),
        ExpressionForm::For(pattern, a, b) => iterating(layer, frames, note, pattern, a, b),
        ExpressionForm::Label(name, written, a) => labelled(
            layer,
            frames,
            note,
            name.as_slice(),
            written,
            a,
        ),
        ExpressionForm::Break(name) => breaking(
            layer.alloc,
            layer.types,
            frames,
            note,
            name.as_slice(),
        ),
        ExpressionForm::BreakWith(name, a) => breaking_with(
            layer,
            frames,
            note,
            name.as_slice(),
            a,
        ),
        ExpressionForm::Continue(name) => continuing(
            layer.alloc,
            layer.types,
            frames,
            note,
            name.as_slice(),
        ),
        ExpressionForm::Return => returning(layer.alloc, layer.types, frames, note),
        ExpressionForm::ReturnWith(a) => returning_with(layer, frames, note, a),
        ExpressionForm::Throw(a) => throwing(layer, frames, note, a),
        ExpressionForm::Do(a) => layer.part(frames, a),
        ExpressionForm::DoOption(a) => do_option(layer, frames, note, a),
        ExpressionForm::Bang(a) => bang(layer, frames, note, a),
        ExpressionForm::Block(declarations) => block(lists, frames, note, declarations.as_slice()),
        ExpressionForm::Function(signature, body) => function(layer, frames, note, signature, body),
        ExpressionForm::ObjectBlock(declarations) => object_block(
            lists,
            frames,
            note,
            declarations.as_slice(),
        ),
        ExpressionForm::Assert(a) => assertion(layer, frames, note, a),
        ExpressionForm::Ignore(a) => ignoring(layer, frames, note, a),
        ExpressionForm::Debug(a) => layer.part(frames, a),
        ExpressionForm::ActorReference(text) => actor_reference(
            layer.alloc,
            layer.types,
            note,
            text.as_slice(),
        ),
        ExpressionForm::Await(a) => awaiting(layer, frames, note, a),
        ExpressionForm::BuiltIn(given) => built_in_member(layer.alloc, layer.types, note, *given),
        ExpressionForm::Subsumed(a) => layer.part(frames, a),
    }
}
