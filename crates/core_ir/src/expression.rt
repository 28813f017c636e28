//! The language of nested expressions.
use crate::constant::Constant;
use crate::primitive::{Constructor, Primitive};
use crate::program::Signature;
use crate::shared::Shared;
use mo_syntax::{Items, Node};

/// An expression. A name is the number of binders between its use and its own, a label likewise among labels.
#[cycle(expression)]
#[derive(Drop)]
pub enum Expression {
    Constant(Shared<Constant>),
    Name(u32),
    /// A name of the actor: the actor itself, its methods as shared functions, and then what its start gave.
    Global(u32),
    /// The arguments from left to right, and then what is done with their values.
    Do(Goal, Items<Expression>),
    /// Bindings, each around those behind it, and the value.
    Block(Items<Binding>, Node<Expression>),
    /// Again and again; its value is not looked at.
    Loop(Node<Expression>),
    /// What a `Break` leaves with a value.
    Label(Node<Expression>),
    /// The second expression takes the error of the first one, as its nearest name.
    Try(Node<Expression>, Node<Expression>),
}

/// What is done with the values of arguments.
#[cycle(expression)]
#[derive(Drop)]
pub enum Goal {
    Operate(Shared<Primitive>),
    /// The first branch where the primitive gives `true`, and the second one where it gives `false`.
    Choose(Shared<Primitive>, Node<Expression>, Node<Expression>),
    /// The first branch where the value has the form, with what is inside as its nearest name; else the second one.
    Match(Shared<Constructor>, Node<Expression>, Node<Expression>),
    /// The function, and its arguments.
    Call,
    /// `Array.tabulate`: the number of elements, and the function of an index.
    Tabulate,
    /// The shared function with these types, and its arguments.
    Send(Shared<Signature>),
    Throw,
    /// The future.
    Await,
    /// Leaves so many labels and the next one with the value.
    Break(u32),
    Return,
}

/// What stands around the bindings behind it.
#[cycle(expression)]
#[derive(Drop)]
pub enum Binding {
    /// The value is the nearest name.
    Value(Expression),
    /// The functions of this group are made; their values are the nearest names, the first one nearest.
    Functions(u32),
}

/// The body of a function or method. Its names are its parameters, the functions of its group, and what the group sees.
#[derive(Drop)]
pub struct CoreBody {
    pub parameters: u32,
    /// The nodes of the parameters and the body in the source.
    pub nodes: u32,
    pub expression: Expression,
}
