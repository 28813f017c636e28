//! The abstract syntax of types (Motoko language manual, "Types"): without parentheses around one type, marks and separators.
use crate::boxed::Boxed;
use crate::names::PlacedName;
use mo_num::Bytes;
use mo_syntax::{Items, Sharing};

/// A type, with the number of its first token.
#[cycle(type_node)]
pub struct TypeNode {
    pub at: u32,
    pub form: Boxed<TypeForm>,
}

/// The forms of types.
#[cycle(type_node)]
pub enum TypeForm {
    /// `(A, B) -> C`, where `shared` or `shared query` may stand before it.
    Function(Sharing, Items<TypeNode>, TypeNode),
    /// `? A`
    Optional(TypeNode),
    /// `async A`
    Async(TypeNode),
    /// A name, and its arguments.
    Use(Bytes, Items<TypeNode>),
    /// `(A, B)`, of no item or of several.
    Tuple(Items<TypeNode>),
    /// `[ A ]`, or with `var` `[ var A ]`.
    Array(bool, TypeNode),
    /// `{ x : A; var y : B }`
    Object(Items<TypeField>),
    /// `{ #a; #b : B }`
    Variant(Items<TypeField>),
    /// `actor { f : A; g : B }`
    Actor(Items<TypeField>),
}

/// A field, tag or method.
#[cycle(type_node)]
pub enum TypeField {
    /// `x : A`, `#x : A`, or with `var` `var x : A`.
    Field(bool, PlacedName, TypeNode),
    /// `#x`, whose type is `()`.
    EmptyTag(PlacedName),
}

/// `T`, or `T <: A`, in the type parameters of a function or class.
pub struct TypeParameter {
    pub name: PlacedName,
    pub bound: Option<TypeNode>,
}

// Written here, so that they are proved here, and not again in each crate that lets a type go.
impl Drop for TypeNode {
    #[cycle(type_node_drop)]
    fn drop(self) {
        let TypeNode {
            at: _at,
            form: _form,
        } = self;
    }
}

impl Drop for TypeForm {
    #[cycle(type_node_drop)]
    fn drop(self) {
        match self {
            TypeForm::Function(_sharing, _parameters, _result) => {}
            TypeForm::Optional(_of) => {}
            TypeForm::Async(_of) => {}
            TypeForm::Use(_name, _arguments) => {}
            TypeForm::Tuple(_items) => {}
            TypeForm::Array(_mutable, _of) => {}
            TypeForm::Object(_fields) => {}
            TypeForm::Variant(_tags) => {}
            TypeForm::Actor(_methods) => {}
        }
    }
}

impl Drop for TypeField {
    #[cycle(type_node_drop)]
    fn drop(self) {
        match self {
            TypeField::Field(_mutable, _name, _of) => {}
            TypeField::EmptyTag(_name) => {}
        }
    }
}

impl Drop for TypeParameter {
    fn drop(self) {
        let TypeParameter {
            name: _name,
            bound: _bound,
        } = self;
    }
}
