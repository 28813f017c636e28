//! What the form of an expression is, as far as the rule of an expression around it looks at it.
ghost use Rattle.std.specs.Prelude.{◌≡◌};
ghost use Rattle.abstract_tree.specs.TreeView.{plain, plain_form};
ghost use Rattle.expression_shapes.specs.Shapes.{seen_shape, shape_of, shape_of_form};

use abstract_tree::{Expression, ExpressionForm};
use mo_syntax::Literal;

/// The form of an expression, where the rule of an expression around it looks at it.
#[derive(Clone, Copy)]
pub enum Shape<'a> {
    Constant(&'a Literal),
    Name(&'a [u8]),
    Member(&'a Expression<u32>, &'a [u8]),
    Negative(&'a Expression<u32>),
    ActorReference(&'a [u8]),
    Other,
}

fn form_shape(form: &ExpressionForm<u32>) -> Shape<'_>
    ensures { seen_shape result ≡ shape_of_form (plain_form form.now) }
{
    match form {
        ExpressionForm::Constant(literal) => Shape::Constant(literal),
        ExpressionForm::Name(name) => Shape::Name(name.as_slice()),
        ExpressionForm::Tuple(_) => Shape::Other,
        ExpressionForm::Optional(_) => Shape::Other,
        ExpressionForm::Tag(_) => Shape::Other,
        ExpressionForm::Tagged(_, _) => Shape::Other,
        ExpressionForm::Array(_, _) => Shape::Other,
        ExpressionForm::Object(_) => Shape::Other,
        ExpressionForm::Member(of, name) => Shape::Member(of, name.as_slice()),
        ExpressionForm::Projection(_, _) => Shape::Other,
        ExpressionForm::Index(_, _) => Shape::Other,
        ExpressionForm::Annotated(_, _) => Shape::Other,
        ExpressionForm::Negative(of) => Shape::Negative(of),
        ExpressionForm::Binary(_, _, _) => Shape::Other,
        ExpressionForm::Not(_) => Shape::Other,
        ExpressionForm::Assign(_, _) => Shape::Other,
        ExpressionForm::AssignBy(_, _, _) => Shape::Other,
        ExpressionForm::Call(_, _, _) => Shape::Other,
        ExpressionForm::When(_, _) => Shape::Other,
        ExpressionForm::If(_, _, _) => Shape::Other,
        ExpressionForm::Switch(_, _) => Shape::Other,
        ExpressionForm::Try(_, _, _) => Shape::Other,
        ExpressionForm::While(_, _) => Shape::Other,
        ExpressionForm::Loop(_) => Shape::Other,
        ExpressionForm::LoopWhile(_, _) => Shape::Other,
        ExpressionForm::For(_, _, _) => Shape::Other,
        ExpressionForm::Label(_, _, _) => Shape::Other,
        ExpressionForm::Break(_) => Shape::Other,
        ExpressionForm::BreakWith(_, _) => Shape::Other,
        ExpressionForm::Continue(_) => Shape::Other,
        ExpressionForm::Return => Shape::Other,
        ExpressionForm::ReturnWith(_) => Shape::Other,
        ExpressionForm::Throw(_) => Shape::Other,
        ExpressionForm::Do(_) => Shape::Other,
        ExpressionForm::DoOption(_) => Shape::Other,
        ExpressionForm::Bang(_) => Shape::Other,
        ExpressionForm::Block(_) => Shape::Other,
        ExpressionForm::Function(_, _) => Shape::Other,
        ExpressionForm::ObjectBlock(_) => Shape::Other,
        ExpressionForm::Assert(_) => Shape::Other,
        ExpressionForm::Ignore(_) => Shape::Other,
        ExpressionForm::Debug(_) => Shape::Other,
        ExpressionForm::ActorReference(text) => Shape::ActorReference(text.as_slice()),
        ExpressionForm::Await(_) => Shape::Other,
        ExpressionForm::BuiltIn(_) => Shape::Other,
        ExpressionForm::Subsumed(_) => Shape::Other,
    }
}

/// The form of an expression, where it is one that the rule of an expression around it looks at.
pub fn shape_of(expression: &Expression<u32>) -> Shape<'_>
    ensures { seen_shape result ≡ shape_of (plain expression.now) }
{
    form_shape(expression.form.get())
}
