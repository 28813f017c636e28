//! What an expression is, where the form around it looks at it.
ghost use Rattle.std.specs.Prelude.{◌≡◌};
ghost use Rattle.typing_rules.specs.AbstractSyntax as syntax;
ghost use Rattle.typing_rules.specs.Spans.{literal_of};
ghost use Rattle.abstract_tree.specs.TreeView.{expression_form};
ghost use Rattle.judged_parts.specs.Parts.{See};
ghost use Rattle.kernel_shapes.specs.Shapes.{seen_shape, shape_of};

use abstract_tree::{Expression, ExpressionForm};
use abstract_types::Pattern;
use mo_syntax::Literal;
use value_scopes::Note;

/// What an expression is, where the form around it looks at it: a number after `-`, a place that is assigned to, or a loop under a
/// label.
#[derive(Clone, Copy)]
pub(crate) enum Shape<'a> {
    Numeral(u64),
    Name(&'a [u8]),
    /// `a.x`
    Member(&'a Expression<Note>, &'a [u8]),
    /// `a[i]`
    Element(&'a Expression<Note>, &'a Expression<Note>),
    /// `while c a`
    While(&'a Expression<Note>, &'a Expression<Note>),
    /// `loop a`
    Loop(&'a Expression<Note>),
    /// `loop a while c`
    LoopWhile(&'a Expression<Note>, &'a Expression<Note>),
    /// `for (p in a) b`
    For(&'a Pattern<Note>, &'a Expression<Note>, &'a Expression<Note>),
    Other,
}

fn numeral(literal: &Literal) -> Shape<'_>
    ensures { (see : See) → seen_shape see result ≡ shape_of (syntax.Constant (literal_of literal.now)) }
{
    match literal {
        Literal::Number(number) => Shape::Numeral(*number),
        Literal::Character(_) => Shape::Other,
        Literal::Text(_) => Shape::Other,
        Literal::True => Shape::Other,
        Literal::False => Shape::Other,
        Literal::Null => Shape::Other,
    }
}

/// What an expression of this form is.
pub(crate) fn shape_of_form(form: &ExpressionForm<Note>) -> Shape<'_>
    ensures { (see : See) → seen_shape see result ≡ shape_of (expression_form see form.now) }
{
    match form {
        ExpressionForm::Constant(literal) => numeral(literal),
        ExpressionForm::Name(name) => Shape::Name(name.as_slice()),
        ExpressionForm::Tuple(_) => Shape::Other,
        ExpressionForm::Optional(_) => Shape::Other,
        ExpressionForm::Tag(_) => Shape::Other,
        ExpressionForm::Tagged(_, _) => Shape::Other,
        ExpressionForm::Array(_, _) => Shape::Other,
        ExpressionForm::Object(_) => Shape::Other,
        ExpressionForm::Member(a, name) => Shape::Member(a, name.as_slice()),
        ExpressionForm::Projection(_, _) => Shape::Other,
        ExpressionForm::Index(a, i) => Shape::Element(a, i),
        ExpressionForm::Annotated(_, _) => Shape::Other,
        ExpressionForm::Negative(_) => Shape::Other,
        ExpressionForm::Binary(_, _, _) => Shape::Other,
        ExpressionForm::Not(_) => Shape::Other,
        ExpressionForm::Assign(_, _) => Shape::Other,
        ExpressionForm::AssignBy(_, _, _) => Shape::Other,
        ExpressionForm::Call(_, _, _) => Shape::Other,
        ExpressionForm::When(_, _) => Shape::Other,
        ExpressionForm::If(_, _, _) => Shape::Other,
        ExpressionForm::Switch(_, _) => Shape::Other,
        ExpressionForm::Try(_, _, _) => Shape::Other,
        ExpressionForm::While(c, a) => Shape::While(c, a),
        ExpressionForm::Loop(a) => Shape::Loop(a),
        ExpressionForm::LoopWhile(a, c) => Shape::LoopWhile(a, c),
        ExpressionForm::For(q, a, b) => Shape::For(q, a, b),
        ExpressionForm::Label(_, _, _) => Shape::Other,
        ExpressionForm::Break(_) => Shape::Other,
        ExpressionForm::BreakWith(_, _) => Shape::Other,
        ExpressionForm::Continue(_) => Shape::Other,
        ExpressionForm::Return => Shape::Other,
        ExpressionForm::ReturnWith(_) => Shape::Other,
        ExpressionForm::Throw(_) => Shape::Other,
        ExpressionForm::Do(_) => Shape::Other,
        ExpressionForm::DoOption(_) => Shape::Other,
        ExpressionForm::Bang(_) => Shape::Other,
        ExpressionForm::Block(_) => Shape::Other,
        ExpressionForm::Function(_, _) => Shape::Other,
        ExpressionForm::ObjectBlock(_) => Shape::Other,
        ExpressionForm::Assert(_) => Shape::Other,
        ExpressionForm::Ignore(_) => Shape::Other,
        ExpressionForm::Debug(_) => Shape::Other,
        ExpressionForm::ActorReference(_) => Shape::Other,
        ExpressionForm::Await(_) => Shape::Other,
        ExpressionForm::BuiltIn(_) => Shape::Other,
        ExpressionForm::Subsumed(_) => Shape::Other,
    }
}
