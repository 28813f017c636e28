//! Types, as they are written (Motoko language manual, "Types").
use crate::items::Items;
use crate::name::Name;
use crate::node::Node;

/// A type.
#[cycle(type_expression)]
pub enum TypeExpression {
    /// `A -> B`, where `shared` or `shared query` may stand before it.
    Function(Sharing, Node<TypeExpression>, Node<TypeExpression>),
    /// `? A`
    Optional(Node<TypeExpression>),
    /// `async A`
    Async(Node<TypeExpression>),
    /// A name, and its arguments where `< >` stand.
    Named(Name, Option<Items<Node<TypeExpression>>>),
    /// `( A, B )`. One item without a name is the type itself.
    Parenthesized(Items<Node<TypeItem>>),
    /// `[ A ]`, or with `var` `[ var A ]`.
    Array(bool, Node<TypeExpression>),
    /// `{ x : A; y : B }`, with `object` before it or not, and a last `;` or not.
    Object(bool, Items<Node<TypeField>>, bool),
    /// `{ # }`
    EmptyVariant,
    /// `{ #a; #b : B }`, with a last `;` or not.
    Variant(Items<Node<TypeTag>>, bool),
    /// `actor { f : A; g : B }`, with a last `;` or not.
    Actor(Items<Node<TypeMethod>>, bool),
}

/// What stands before a function type.
#[derive(Clone, Copy)]
pub enum Sharing {
    /// Nothing.
    Local,
    /// `shared`
    Shared,
    /// `shared query`
    SharedQuery,
}

/// `A`, or `x : A`, in parentheses.
#[cycle(type_expression)]
pub struct TypeItem {
    pub name: Option<Name>,
    pub annotation: Node<TypeExpression>,
}

/// `x : A`, or `var x : A`, in an object type.
#[cycle(type_expression)]
pub struct TypeField {
    pub mutable: bool,
    pub name: Name,
    pub annotation: Node<TypeExpression>,
}

/// `#a`, or `#a : A`, in a variant type.
#[cycle(type_expression)]
pub struct TypeTag {
    pub name: Name,
    pub payload: Option<Node<TypeExpression>>,
}

/// `f : A`, in an actor type.
#[cycle(type_expression)]
pub struct TypeMethod {
    pub name: Name,
    pub annotation: Node<TypeExpression>,
}

/// `T`, or `T <: A`, in the type parameters of a function or class.
pub struct TypeParameter {
    pub name: Name,
    pub bound: Option<Node<TypeExpression>>,
}

// Written here, so that they are proved here, and not again in each crate that lets a type go.
impl Drop for TypeExpression {
    #[cycle(type_drop)]
    fn drop(self) {
        match self {
            TypeExpression::Function(_sharing, _from, _to) => {}
            TypeExpression::Optional(_of) => {}
            TypeExpression::Async(_of) => {}
            TypeExpression::Named(_name, _arguments) => {}
            TypeExpression::Parenthesized(_items) => {}
            TypeExpression::Array(_mutable, _of) => {}
            TypeExpression::Object(_object, _fields, _semicolon) => {}
            TypeExpression::EmptyVariant => {}
            TypeExpression::Variant(_tags, _semicolon) => {}
            TypeExpression::Actor(_methods, _semicolon) => {}
        }
    }
}

impl Drop for TypeItem {
    #[cycle(type_drop)]
    fn drop(self) {
        let TypeItem {
            name: _name,
            annotation: _annotation,
        } = self;
    }
}

impl Drop for TypeField {
    #[cycle(type_drop)]
    fn drop(self) {
        let TypeField {
            mutable: _mutable,
            name: _name,
            annotation: _annotation,
        } = self;
    }
}

impl Drop for TypeTag {
    #[cycle(type_drop)]
    fn drop(self) {
        let TypeTag {
            name: _name,
            payload: _payload,
        } = self;
    }
}

impl Drop for TypeMethod {
    #[cycle(type_drop)]
    fn drop(self) {
        let TypeMethod {
            name: _name,
            annotation: _annotation,
        } = self;
    }
}

impl Drop for TypeParameter {
    fn drop(self) {
        let TypeParameter {
            name: _name,
            bound: _bound,
        } = self;
    }
}
