//! The abstract syntax of expressions (Motoko language manual, "Expressions"): without parentheses around one expression, marks and separators.
//! Each expression has a note: in what is judged the number of its first token, and in what is given its type besides.
use crate::declarations::Declaration;
use abstract_types::{Boxed, Pattern, PlacedName, Signature, TypeNode};
use mo_num::Bytes;
use mo_scopes::Member;
use mo_syntax::{BinaryOperator, Items, Literal};

/// An expression, with its note.
#[cycle(abstract_expression)]
pub struct Expression<N> {
    pub note: N,
    pub form: Boxed<ExpressionForm<N>>,
}

/// The forms of expressions.
#[cycle(abstract_expression)]
pub enum ExpressionForm<N> {
    /// A literal.
    Constant(Literal),
    /// A name.
    Name(Bytes),
    /// `(a, b)`, of no expression or of several.
    Tuple(Items<Expression<N>>),
    /// `? a`
    Optional(Expression<N>),
    /// `#x`
    Tag(Bytes),
    /// `#x a`
    Tagged(Bytes, Expression<N>),
    /// `[a, b]`, or with `var` `[var a, b]`.
    Array(bool, Items<Expression<N>>),
    /// `{ x = a; var y : A = b }`
    Object(Items<ObjectField<N>>),
    /// `a.x`
    Member(Expression<N>, Bytes),
    /// `a.0`
    Projection(Expression<N>, u64),
    /// `a[i]`
    Index(Expression<N>, Expression<N>),
    /// `a : A`
    Annotated(Expression<N>, TypeNode),
    /// `- a`
    Negative(Expression<N>),
    /// `a + b`, or with another operator.
    Binary(BinaryOperator, Expression<N>, Expression<N>),
    /// `not a`
    Not(Expression<N>),
    /// `p := a`
    Assign(Expression<N>, Expression<N>),
    /// `p += a`, or with another operator.
    AssignBy(BinaryOperator, Expression<N>, Expression<N>),
    /// `f<A, B>(a, b)`. The type arguments may be missing.
    Call(Expression<N>, Option<Items<TypeNode>>, Items<Expression<N>>),
    /// `if c a`
    When(Expression<N>, Expression<N>),
    /// `if c a else b`
    If(Expression<N>, Expression<N>, Expression<N>),
    /// `switch a { case p b; case q c }`
    Switch(Expression<N>, Items<Case<N>>),
    /// `try a catch p b`
    Try(Expression<N>, Pattern<N>, Expression<N>),
    /// `while c a`
    While(Expression<N>, Expression<N>),
    /// `loop a`
    Loop(Expression<N>),
    /// `loop a while c`
    LoopWhile(Expression<N>, Expression<N>),
    /// `for (p in a) b`
    For(Pattern<N>, Expression<N>, Expression<N>),
    /// `label x a`, or `label x : A a`.
    Label(Bytes, Option<TypeNode>, Expression<N>),
    /// `break x`
    Break(Bytes),
    /// `break x a`
    BreakWith(Bytes, Expression<N>),
    /// `continue x`
    Continue(Bytes),
    /// `return`
    Return,
    /// `return a`
    ReturnWith(Expression<N>),
    /// `throw a`
    Throw(Expression<N>),
    /// `do { .. }`
    Do(Expression<N>),
    /// `do ? { .. }`
    DoOption(Expression<N>),
    /// `a!`
    Bang(Expression<N>),
    /// `{ d; a }`
    Block(Items<Declaration<N>>),
    /// `func (p, q) : A { .. }`
    Function(Signature<N>, Expression<N>),
    /// `object { .. }`
    ObjectBlock(Items<Declaration<N>>),
    /// `assert a`
    Assert(Expression<N>),
    /// `ignore a`
    Ignore(Expression<N>),
    /// `debug a`
    Debug(Expression<N>),
    /// `actor "id"`, by its text.
    ActorReference(Bytes),
    /// `await a`
    Await(Expression<N>),
    /// A member of a module. It stands only in what is given.
    BuiltIn(Member),
    /// An operand at a type above its own. It stands only in what is given.
    Subsumed(Expression<N>),
}

/// `case p a`
#[cycle(abstract_expression)]
pub struct Case<N> {
    pub pattern: Pattern<N>,
    pub body: Expression<N>,
}

/// `x : A = a`, with `var` before it or not. The type may be missing; a field `x` is `x = x`.
#[cycle(abstract_expression)]
pub struct ObjectField<N> {
    pub mutable: bool,
    pub name: PlacedName,
    pub annotation: Option<TypeNode>,
    pub value: Expression<N>,
}

// Written here, so that they are proved here, and not again in each crate that lets an expression go.
impl<N: Drop> Drop for Expression<N> {
    #[cycle(abstract_expression_drop)]
    fn drop(self) {
        let Expression {
            note: _note,
            form: _form,
        } = self;
    }
}

impl<N: Drop> Drop for ExpressionForm<N> {
    #[cycle(abstract_expression_drop)]
    fn drop(self) {
        match self {
            ExpressionForm::Constant(_literal) => {}
            ExpressionForm::Name(_name) => {}
            ExpressionForm::Tuple(_items) => {}
            ExpressionForm::Optional(_of) => {}
            ExpressionForm::Tag(_name) => {}
            ExpressionForm::Tagged(_name, _of) => {}
            ExpressionForm::Array(_mutable, _items) => {}
            ExpressionForm::Object(_fields) => {}
            ExpressionForm::Member(_of, _name) => {}
            ExpressionForm::Projection(_of, _number) => {}
            ExpressionForm::Index(_of, _index) => {}
            ExpressionForm::Annotated(_of, _annotation) => {}
            ExpressionForm::Negative(_of) => {}
            ExpressionForm::Binary(_operator, _left, _right) => {}
            ExpressionForm::Not(_of) => {}
            ExpressionForm::Assign(_left, _right) => {}
            ExpressionForm::AssignBy(_operator, _left, _right) => {}
            ExpressionForm::Call(_function, _types, _arguments) => {}
            ExpressionForm::When(_condition, _body) => {}
            ExpressionForm::If(_condition, _first_branch, _second_branch) => {}
            ExpressionForm::Switch(_of, _cases) => {}
            ExpressionForm::Try(_body, _pattern, _handler) => {}
            ExpressionForm::While(_condition, _body) => {}
            ExpressionForm::Loop(_body) => {}
            ExpressionForm::LoopWhile(_body, _condition) => {}
            ExpressionForm::For(_pattern, _of, _body) => {}
            ExpressionForm::Label(_name, _annotation, _body) => {}
            ExpressionForm::Break(_name) => {}
            ExpressionForm::BreakWith(_name, _of) => {}
            ExpressionForm::Continue(_name) => {}
            ExpressionForm::Return => {}
            ExpressionForm::ReturnWith(_of) => {}
            ExpressionForm::Throw(_of) => {}
            ExpressionForm::Do(_body) => {}
            ExpressionForm::DoOption(_body) => {}
            ExpressionForm::Bang(_of) => {}
            ExpressionForm::Block(_declarations) => {}
            ExpressionForm::Function(_signature, _body) => {}
            ExpressionForm::ObjectBlock(_declarations) => {}
            ExpressionForm::Assert(_of) => {}
            ExpressionForm::Ignore(_of) => {}
            ExpressionForm::Debug(_of) => {}
            ExpressionForm::ActorReference(_text) => {}
            ExpressionForm::Await(_of) => {}
            ExpressionForm::BuiltIn(_member) => {}
            ExpressionForm::Subsumed(_of) => {}
        }
    }
}

impl<N: Drop> Drop for Case<N> {
    #[cycle(abstract_expression_drop)]
    fn drop(self) {
        let Case {
            pattern: _pattern,
            body: _body,
        } = self;
    }
}

impl<N: Drop> Drop for ObjectField<N> {
    #[cycle(abstract_expression_drop)]
    fn drop(self) {
        let ObjectField {
            mutable: _mutable,
            name: _name,
            annotation: _annotation,
            value: _value,
        } = self;
    }
}
