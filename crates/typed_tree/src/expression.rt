//! Typed expressions.
use crate::action::Action;
use crate::literal::Literal;
use crate::pattern::TypedPattern;
use mo_num::Sequence;
use mo_syntax::{Items, Node};
use mo_types::{Sort, TypeId};
use mo_values::Operation;

/// An expression with its own type: that of its value, of what a cell holds, or that of a future.
#[cycle(typed)]
pub struct TypedExpression {
    pub of_type: TypeId,
    pub form: Node<Form>,
}

/// The forms of expressions: Motoko language manual, section "Expressions". Derived forms are written out in these.
#[cycle(typed)]
pub enum Form {
    Constant(Literal),
    /// How many names stand between the use of a name and its own place, the nearest first.
    Name(u32),
    /// The operands from left to right, and then what is done with their values.
    Do(Action, Items<TypedExpression>),
    /// `if c a else b`
    If(TypedExpression, TypedExpression, TypedExpression),
    /// The number of its first token, or of that of the form which it is written out of; the value, and the cases.
    Switch(u32, TypedExpression, Items<Case>),
    /// `while c a`
    While(TypedExpression, TypedExpression),
    /// `loop a`
    Loop(TypedExpression),
    /// `loop a while c`
    Repeat(TypedExpression, TypedExpression),
    /// `for (p in a) b`
    For(TypedPattern, TypedExpression, TypedExpression),
    /// What a `break` leaves, with the value of the `break` or of the expression. A loop under a label has a second one
    /// around its body, which a `continue` leaves; `do ?` has one, which `!` leaves.
    Label(TypedExpression),
    /// `try a catch p b`
    Try(TypedExpression, TypedPattern, TypedExpression),
    /// `a := a op b`, where `a` is evaluated once, and what it holds is read before `b`.
    Update(Operation, TypedExpression, TypedExpression),
    /// Declarations in the order of evaluation, each around those behind it, and the value.
    Block(Items<Step>, TypedExpression),
}

/// `case p a`
#[cycle(typed)]
pub struct Case {
    pub pattern: TypedPattern,
    pub body: TypedExpression,
}

/// A declaration, or functions whose place is behind the one before: Motoko language manual, section "Declarations".
#[cycle(typed)]
pub enum Step {
    /// `let p = a`
    Let(TypedPattern, TypedExpression),
    /// `var x = a`
    Var(TypedExpression),
    /// `stable var x = a`: the name of what was kept of it, which is taken in the place of the value where there is something.
    Stable(u32, TypedExpression),
    /// The functions and classes whose values are made here, which know each other.
    Functions(Items<Function>),
    /// `a`, whose value is not looked at.
    Evaluate(TypedExpression),
}

/// A function, or a class, which is one that gives an object. In its body the names of its parameters are the nearest, then
/// those of its group, and then those around the group.
#[cycle(typed)]
pub struct Function {
    /// How it is called.
    pub sort: Sort,
    /// Its type parameters, as the types that they stand for in its body.
    pub type_parameters: Sequence<TypeId>,
    /// The nodes of the parameters and the body, as they are written.
    pub nodes: u32,
    pub parameters: Items<TypedPattern>,
    pub body: TypedExpression,
}

// Written here, so that they are proved here, and not again in each crate that lets an expression go.
impl Drop for TypedExpression {
    #[cycle(typed_drop)]
    fn drop(self) {
        let TypedExpression {
            of_type: _of_type,
            form: _form,
        } = self;
    }
}

impl Drop for Form {
    #[cycle(typed_drop)]
    fn drop(self) {
        match self {
            Form::Constant(_literal) => {}
            Form::Name(_index) => {}
            Form::Do(_action, _operands) => {}
            Form::If(_condition, _first_branch, _second_branch) => {}
            Form::Switch(_token, _of, _cases) => {}
            Form::While(_condition, _body) => {}
            Form::Loop(_body) => {}
            Form::Repeat(_body, _condition) => {}
            Form::For(_pattern, _of, _body) => {}
            Form::Label(_body) => {}
            Form::Try(_body, _pattern, _handler) => {}
            Form::Update(_operation, _place, _operand) => {}
            Form::Block(_steps, _value) => {}
        }
    }
}

impl Drop for Case {
    #[cycle(typed_drop)]
    fn drop(self) {
        let Case {
            pattern: _pattern,
            body: _body,
        } = self;
    }
}

impl Drop for Step {
    #[cycle(typed_drop)]
    fn drop(self) {
        match self {
            Step::Let(_pattern, _value) => {}
            Step::Var(_value) => {}
            Step::Stable(_index, _value) => {}
            Step::Functions(_functions) => {}
            Step::Evaluate(_value) => {}
        }
    }
}

impl Drop for Function {
    #[cycle(typed_drop)]
    fn drop(self) {
        let Function {
            sort: _sort,
            type_parameters: _type_parameters,
            nodes: _nodes,
            parameters: _parameters,
            body: _body,
        } = self;
    }
}
