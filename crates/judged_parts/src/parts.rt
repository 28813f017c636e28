//! The parts of an expression of a judged program, whatever is made of them.
ghost use Rattle.std.specs.Prelude.{◌≡◌};
ghost use Rattle.abstract_tree.specs.TreeView.{expression_form};
ghost use Rattle.judged_parts.specs.Parts.{See, parts_of, seen_parts};

use abstract_tree::{Case, Declaration, Expression, ExpressionForm, ObjectField};
use abstract_types::{Pattern, Signature, TypeNode};
use mo_syntax::Items;
use value_scopes::Note;

/// The parts of an expression by their kinds, in their order but for a pattern, which comes first.
#[derive(Clone, Copy)]
pub enum Parts<'a> {
    Nothing,
    Name(&'a [u8]),
    One(&'a Expression<Note>),
    Two(&'a Expression<Note>, &'a Expression<Note>),
    Three(&'a Expression<Note>, &'a Expression<Note>, &'a Expression<Note>),
    Each(&'a [Expression<Note>]),
    Fields(&'a [ObjectField<Note>]),
    Annotated(&'a Expression<Note>, &'a TypeNode),
    Call(&'a Expression<Note>, &'a Option<Items<TypeNode>>, &'a [Expression<Note>]),
    Switch(&'a Expression<Note>, &'a [Case<Note>]),
    WithPattern(&'a Pattern<Note>, &'a Expression<Note>, &'a Expression<Note>),
    Labelled(&'a Option<TypeNode>, &'a Expression<Note>),
    Declared(&'a [Declaration<Note>]),
    Function(&'a Signature<Note>, &'a Expression<Note>),
    /// An operand at a type above its own, which is no node.
    Subsumed(&'a Expression<Note>),
}

/// The parts of an expression of this form.
pub fn parts_of_form(form: &ExpressionForm<Note>) -> Parts<'_>
    ensures { (see : See) → seen_parts see result ≡ parts_of (expression_form see form.now) }
{
    match form {
        ExpressionForm::Constant(_) => Parts::Nothing,
        ExpressionForm::Name(name) => Parts::Name(name.as_slice()),
        ExpressionForm::Tuple(items) => Parts::Each(items.as_slice()),
        ExpressionForm::Optional(a) => Parts::One(a),
        ExpressionForm::Tag(_) => Parts::Nothing,
        ExpressionForm::Tagged(_, a) => Parts::One(a),
        ExpressionForm::Array(_, items) => Parts::Each(items.as_slice()),
        ExpressionForm::Object(fields) => Parts::Fields(fields.as_slice()),
        ExpressionForm::Member(a, _) => Parts::One(a),
        ExpressionForm::Projection(a, _) => Parts::One(a),
        ExpressionForm::Index(a, b) => Parts::Two(a, b),
        ExpressionForm::Annotated(a, t) => Parts::Annotated(a, t),
        ExpressionForm::Negative(a) => Parts::One(a),
        ExpressionForm::Binary(_, a, b) => Parts::Two(a, b),
        ExpressionForm::Not(a) => Parts::One(a),
        ExpressionForm::Assign(a, b) => Parts::Two(a, b),
        ExpressionForm::AssignBy(_, a, b) => Parts::Two(a, b),
        ExpressionForm::Call(a, types, arguments) => Parts::Call(a, types, arguments.as_slice()),
        ExpressionForm::When(a, b) => Parts::Two(a, b),
        ExpressionForm::If(a, b, c) => Parts::Three(a, b, c),
        ExpressionForm::Switch(a, cases) => Parts::Switch(a, cases.as_slice()),
        ExpressionForm::Try(a, q, b) => Parts::WithPattern(q, a, b),
        ExpressionForm::While(a, b) => Parts::Two(a, b),
        ExpressionForm::Loop(a) => Parts::One(a),
        ExpressionForm::LoopWhile(a, b) => Parts::Two(a, b),
        ExpressionForm::For(q, a, b) => Parts::WithPattern(q, a, b),
        ExpressionForm::Label(_, t, a) => Parts::Labelled(t, a),
        ExpressionForm::Break(_) => Parts::Nothing,
        ExpressionForm::BreakWith(_, a) => Parts::One(a),
        ExpressionForm::Continue(_) => Parts::Nothing,
        ExpressionForm::Return => Parts::Nothing,
        ExpressionForm::ReturnWith(a) => Parts::One(a),
        ExpressionForm::Throw(a) => Parts::One(a),
        ExpressionForm::Do(a) => Parts::One(a),
        ExpressionForm::DoOption(a) => Parts::One(a),
        ExpressionForm::Bang(a) => Parts::One(a),
        ExpressionForm::Block(ds) => Parts::Declared(ds.as_slice()),
        ExpressionForm::Function(g, a) => Parts::Function(g, a),
        ExpressionForm::ObjectBlock(ds) => Parts::Declared(ds.as_slice()),
        ExpressionForm::Assert(a) => Parts::One(a),
        ExpressionForm::Ignore(a) => Parts::One(a),
        ExpressionForm::Debug(a) => Parts::One(a),
        ExpressionForm::ActorReference(_) => Parts::Nothing,
        ExpressionForm::Await(a) => Parts::One(a),
        ExpressionForm::BuiltIn(_) => Parts::Nothing,
        ExpressionForm::Subsumed(a) => Parts::Subsumed(a),
    }
}
