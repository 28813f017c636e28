//! The abstract syntax of declarations (Motoko language manual, "Declarations", "Actors").
use crate::expressions::Expression;
use abstract_types::{Boxed, Pattern, PlacedName, Signature, TypeNode};
use mo_syntax::Items;

/// A declaration of a list, with its note, and whether it is public. Those of a block are not; of those of the actor the methods are.
#[cycle(abstract_expression)]
pub struct Declaration<N> {
    pub public: bool,
    pub note: N,
    pub form: Boxed<DeclarationForm<N>>,
}

/// The forms of declarations.
#[cycle(abstract_expression)]
pub enum DeclarationForm<N> {
    /// `let p = a`
    Let(Pattern<N>, Expression<N>),
    /// `var x : A = a`, or with `stable` before it. The type may be missing.
    Var(bool, PlacedName, Option<TypeNode>, Expression<N>),
    /// `func f<T>(p) : A { .. }`
    Func(PlacedName, Signature<N>, Expression<N>),
    /// A public function of the actor: whether it is a query, the pattern of its context, its signature and body.
    Method(bool, Option<Pattern<N>>, PlacedName, Signature<N>, Expression<N>),
    /// `system func f() { .. }`
    System(PlacedName, Expression<N>),
    /// `type T<U> = A`
    TypeAlias(PlacedName, Items<PlacedName>, TypeNode),
    /// `class C<T>(p) { .. }`
    Class(PlacedName, Signature<N>, Items<Declaration<N>>),
    /// `object x { .. }`
    NamedObject(PlacedName, Items<Declaration<N>>),
    /// An expression.
    Evaluate(Expression<N>),
}

// Written here, so that they are proved here, and not again in each crate that lets a declaration go.
impl<N: Drop> Drop for Declaration<N> {
    #[cycle(abstract_expression_drop)]
    fn drop(self) {
        let Declaration {
            public: _public,
            note: _note,
            form: _form,
        } = self;
    }
}

impl<N: Drop> Drop for DeclarationForm<N> {
    #[cycle(abstract_expression_drop)]
    fn drop(self) {
        match self {
            DeclarationForm::Let(_pattern, _value) => {}
            DeclarationForm::Var(_stable, _name, _annotation, _value) => {}
            DeclarationForm::Func(_name, _signature, _body) => {}
            DeclarationForm::Method(_query, _context, _name, _signature, _body) => {}
            DeclarationForm::System(_name, _body) => {}
            DeclarationForm::TypeAlias(_name, _parameters, _of) => {}
            DeclarationForm::Class(_name, _signature, _fields) => {}
            DeclarationForm::NamedObject(_name, _fields) => {}
            DeclarationForm::Evaluate(_of) => {}
        }
    }
}
