//! Programs: the imports and the actor (Motoko language manual, "Programs", "Imports", "Actors").
use crate::declarations::Declaration;
use crate::expressions::Expression;
use crate::items::Items;
use crate::name::Name;
use crate::node::Node;
use crate::patterns::{Parameters, Pattern, PatternField};
use crate::text::Text;
use crate::types::TypeExpression;

/// The tree of a program.
pub struct Tree {
    pub imports: Items<Node<Import>>,
    pub actor: Node<Actor>,
    /// Whether a `;` stands behind the actor.
    pub semicolon: bool,
}

// Written here, so that it is proved here, and not again in each crate that lets a tree go.
impl Drop for Tree {
    fn drop(self) {
        let Tree {
            imports: _imports,
            actor: _actor,
            semicolon: _semicolon,
        } = self;
    }
}

/// `import x "path";`
pub struct Import {
    pub name: Name,
    /// Whether `=` stands behind the name.
    pub equal_sign: bool,
    pub path: Text,
}

/// `actor x { .. }`. The name may be missing.
pub struct Actor {
    pub name: Option<Name>,
    /// Whether `=` stands before the fields.
    pub equal_sign: bool,
    pub fields: Items<Node<ActorField>>,
    /// Whether a `;` ends the fields.
    pub semicolon: bool,
}

/// A field of an actor.
pub enum ActorField {
    /// `public` and a function.
    Public(Node<SharedFunction>),
    /// `system func f() { .. }`, or with `=` and an expression as its body.
    System(Name, bool, Node<Expression>),
    /// A declaration, with `private` before it or not.
    Declared(bool, Node<Declaration>),
    /// `stable var x : A = e`, with `private` before it or not. The type may be missing.
    Stable(bool, Name, Option<Node<TypeExpression>>, Node<Expression>),
}

/// A public function of an actor: `shared (p) func f(q) : A { .. }`, or with `=` and an expression as its body.
pub struct SharedFunction {
    pub prefix: Option<SharedPrefix>,
    pub name: Name,
    pub parameters: Parameters,
    pub result: Node<TypeExpression>,
    /// Whether `=` stands before the body.
    pub equal_sign: bool,
    pub body: Node<Expression>,
}

/// What stands before `func`.
pub struct SharedPrefix {
    pub sort: SharedSort,
    pub context: Option<Context>,
}

/// The words before `func`.
#[derive(Clone, Copy)]
pub enum SharedSort {
    /// `shared`
    Shared,
    /// `shared query`
    SharedQuery,
    /// `query`
    Query,
}

/// The pattern of the context of a call.
pub enum Context {
    /// `( p )`
    Parenthesized(Node<Pattern>),
    /// `{ x = p; y }`, with a last `;` or not.
    Object(Items<Node<PatternField>>, bool),
}

// Written here, so that they are proved here, and not again in each crate that lets a part of a program go.
impl Drop for Import {
    fn drop(self) {
        let Import {
            name: _name,
            equal_sign: _equal_sign,
            path: _path,
        } = self;
    }
}

impl Drop for Actor {
    fn drop(self) {
        let Actor {
            name: _name,
            equal_sign: _equal_sign,
            fields: _fields,
            semicolon: _semicolon,
        } = self;
    }
}

impl Drop for ActorField {
    fn drop(self) {
        match self {
            ActorField::Public(_function) => {}
            ActorField::System(_name, _flag, _expression) => {}
            ActorField::Declared(_flag, _declaration) => {}
            ActorField::Stable(_flag, _name, _annotation, _expression) => {}
        }
    }
}

impl Drop for SharedFunction {
    fn drop(self) {
        let SharedFunction {
            prefix: _prefix,
            name: _name,
            parameters: _parameters,
            result: _result,
            equal_sign: _equal_sign,
            body: _body,
        } = self;
    }
}

impl Drop for SharedPrefix {
    fn drop(self) {
        let SharedPrefix {
            sort: _sort,
            context: _context,
        } = self;
    }
}

impl Drop for Context {
    fn drop(self) {
        match self {
            Context::Parenthesized(_pattern) => {}
            Context::Object(_fields, _flag) => {}
        }
    }
}
