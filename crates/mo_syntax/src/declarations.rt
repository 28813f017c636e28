//! Declarations, as they are written (Motoko language manual, "Declarations").
use crate::expressions::Expression;
use crate::items::Items;
use crate::name::Name;
use crate::node::Node;
use crate::patterns::{Parameters, Pattern};
use crate::types::{TypeExpression, TypeParameter};

/// A declaration.
#[cycle(expression)]
pub enum Declaration {
    /// `let p = e`
    Let(Node<Pattern>, Node<Expression>),
    /// `var x = e`, or `var x : A = e`
    Var(Name, Option<Node<TypeExpression>>, Node<Expression>),
    /// `func f<T>(p, q) : A { .. }`, or with `=` and an expression as its body. The type parameters and the result type may be missing.
    Func(
        Name,
        Option<Items<TypeParameter>>,
        Parameters,
        Option<Node<TypeExpression>>,
        bool,
        Node<Expression>,
    ),
    /// `type T<U> = A`. The parameters may be missing.
    TypeAlias(Name, Option<Items<Name>>, Node<TypeExpression>),
    /// `class C<T>(p, q) { .. }`, with a last `;` or not. The type parameters may be missing.
    Class(Name, Option<Items<TypeParameter>>, Parameters, Items<Node<DeclarationField>>, bool),
    /// `object x { .. }`, with a last `;` or not.
    NamedObject(Name, Items<Node<DeclarationField>>, bool),
    /// An expression.
    Evaluate(Node<Expression>),
}

/// Who sees a field of an object or class.
#[derive(Clone, Copy)]
pub enum Visibility {
    /// `public`
    Public,
    /// `private`
    Private,
}

/// A declaration in an object or class, with `public` or `private` before it or neither.
#[cycle(expression)]
pub struct DeclarationField {
    pub visibility: Option<Visibility>,
    pub declaration: Node<Declaration>,
}

// Written here, so that they are proved here, and not again in each crate that lets a declaration go.
impl Drop for Declaration {
    #[cycle(expression_drop)]
    fn drop(self) {
        match self {
            Declaration::Let(_pattern, _expression) => {}
            Declaration::Var(_name, _annotation, _expression) => {}
            Declaration::Func(_name, _generics, _parameters, _annotation, _flag, _expression) => {}
            Declaration::TypeAlias(_name, _names, _annotation) => {}
            Declaration::Class(_name, _generics, _parameters, _fields, _flag) => {}
            Declaration::NamedObject(_name, _fields, _flag) => {}
            Declaration::Evaluate(_expression) => {}
        }
    }
}

impl Drop for DeclarationField {
    #[cycle(expression_drop)]
    fn drop(self) {
        let DeclarationField {
            visibility: _visibility,
            declaration: _declaration,
        } = self;
    }
}
