//! Expressions, as they are written (Motoko language manual, "Expressions").
use crate::declarations::{Declaration, DeclarationField};
use crate::items::Items;
use crate::literal::Literal;
use crate::name::Name;
use crate::node::Node;
use crate::operators::{AssignmentOperator, BinaryOperator};
use crate::patterns::{Parameters, Pattern};
use crate::text::Text;
use crate::types::TypeExpression;

/// An expression, or a block where one may stand in its place.
#[cycle(expression)]
pub enum Expression {
    /// `e := f`, or with another operator of assignment.
    Assign(AssignmentOperator, Node<Expression>, Node<Expression>),
    /// `e : A`
    Annotated(Node<Expression>, Node<TypeExpression>),
    /// `e + f`, or with another operator.
    Binary(BinaryOperator, Node<Expression>, Node<Expression>),
    /// `if c e`, or `if c e else f`
    If(Node<Expression>, Node<Expression>, Option<Node<Expression>>),
    /// `switch c { case p e; case q f }`, with a last `;` or not.
    Switch(Node<Expression>, Items<Node<Case>>, bool),
    /// `while c e`
    While(Node<Expression>, Node<Expression>),
    /// `loop e`, or `loop e while c`
    Loop(Node<Expression>, Option<Node<Expression>>),
    /// `for (p in e) f`
    For(Node<Pattern>, Node<Expression>, Node<Expression>),
    /// `label l e`, or `label l : A e`
    Label(Name, Option<Node<TypeExpression>>, Node<Expression>),
    /// `break l`, or `break l e`
    Break(Name, Option<Node<Expression>>),
    /// `continue l`
    Continue(Name),
    /// `return`, or `return e`
    Return(Option<Node<Expression>>),
    /// `do { .. }`
    Do(Node<Expression>),
    /// `do ? { .. }`
    DoOptional(Node<Expression>),
    /// `await e`
    Await(Node<Expression>),
    /// `throw e`
    Throw(Node<Expression>),
    /// `try e catch p f`
    Try(Node<Expression>, Node<Pattern>, Node<Expression>),
    /// `assert e`
    Assert(Node<Expression>),
    /// `ignore e`
    Ignore(Node<Expression>),
    /// `debug e`
    Debug(Node<Expression>),
    /// `func (p, q) : A { .. }`, or with `=` and an expression as its body. The result type may be missing.
    Function(Parameters, Option<Node<TypeExpression>>, bool, Node<Expression>),
    /// `object { .. }`, with a last `;` or not.
    ObjectBlock(Items<Node<DeclarationField>>, bool),
    /// `? e`
    Optional(Node<Expression>),
    /// `- e`
    Negative(Node<Expression>),
    /// `not e`
    Not(Node<Expression>),
    /// `#a`, or `#a e`
    Tagged(Name, Option<Node<Expression>>),
    /// `e.x`
    Member(Node<Expression>, Name),
    /// `e.0`
    Projection(Node<Expression>, u64),
    /// `e[f]`
    Index(Node<Expression>, Node<Expression>),
    /// `e(f, g)`, with type arguments where `< >` stand.
    Call(Node<Expression>, Option<Items<Node<TypeExpression>>>, Items<Node<Expression>>),
    /// `e!`
    Bang(Node<Expression>),
    /// A literal.
    Constant(Literal),
    /// A name.
    Variable(Name),
    /// `(e, f)`. One expression in parentheses is the expression itself.
    Parenthesized(Items<Node<Expression>>),
    /// `[e, f]`, or with `var` `[var e, f]`.
    Array(bool, Items<Node<Expression>>),
    /// `{ x = e; y }`, with a last `;` or not.
    Object(Items<Node<ExpressionField>>, bool),
    /// `actor "id"`, or with parentheses `actor ("id")`.
    ActorReference(bool, Text),
    /// `{ d; e }`, with a last `;` or not.
    Block(Items<Node<Declaration>>, bool),
}

/// `case p e`
#[cycle(expression)]
pub struct Case {
    pub pattern: Node<Pattern>,
    pub body: Node<Expression>,
}

/// `x : A = e`, with `var` before it or not. The type and the value may be missing.
#[cycle(expression)]
pub struct ExpressionField {
    pub mutable: bool,
    pub name: Name,
    pub annotation: Option<Node<TypeExpression>>,
    pub value: Option<Node<Expression>>,
}

// Written here, so that they are proved here, and not again in each crate that lets an expression go.
impl Drop for Expression {
    #[cycle(expression_drop)]
    fn drop(self) {
        match self {
            Expression::Assign(_operator, _first_expression, _second_expression) => {}
            Expression::Annotated(_expression, _annotation) => {}
            Expression::Binary(_operator, _first_expression, _second_expression) => {}
            Expression::If(_first_expression, _second_expression, _third_expression) => {}
            Expression::Switch(_expression, _cases, _flag) => {}
            Expression::While(_first_expression, _second_expression) => {}
            Expression::Loop(_first_expression, _second_expression) => {}
            Expression::For(_pattern, _first_expression, _second_expression) => {}
            Expression::Label(_name, _annotation, _expression) => {}
            Expression::Break(_name, _expression) => {}
            Expression::Continue(_name) => {}
            Expression::Return(_expression) => {}
            Expression::Do(_expression) => {}
            Expression::DoOptional(_expression) => {}
            Expression::Await(_expression) => {}
            Expression::Throw(_expression) => {}
            Expression::Try(_first_expression, _pattern, _second_expression) => {}
            Expression::Assert(_expression) => {}
            Expression::Ignore(_expression) => {}
            Expression::Debug(_expression) => {}
            Expression::Function(_parameters, _annotation, _flag, _expression) => {}
            Expression::ObjectBlock(_fields, _flag) => {}
            Expression::Optional(_expression) => {}
            Expression::Negative(_expression) => {}
            Expression::Not(_expression) => {}
            Expression::Tagged(_name, _expression) => {}
            Expression::Member(_expression, _name) => {}
            Expression::Projection(_expression, _number) => {}
            Expression::Index(_first_expression, _second_expression) => {}
            Expression::Call(_expression, _arguments, _expressions) => {}
            Expression::Bang(_expression) => {}
            Expression::Constant(_literal) => {}
            Expression::Variable(_name) => {}
            Expression::Parenthesized(_expressions) => {}
            Expression::Array(_flag, _expressions) => {}
            Expression::Object(_fields, _flag) => {}
            Expression::ActorReference(_flag, _text) => {}
            Expression::Block(_declarations, _flag) => {}
        }
    }
}

impl Drop for Case {
    #[cycle(expression_drop)]
    fn drop(self) {
        let Case {
            pattern: _pattern,
            body: _body,
        } = self;
    }
}

impl Drop for ExpressionField {
    #[cycle(expression_drop)]
    fn drop(self) {
        let ExpressionField {
            mutable: _mutable,
            name: _name,
            annotation: _annotation,
            value: _value,
        } = self;
    }
}
