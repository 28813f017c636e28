//! The abstract syntax of patterns (Motoko language manual, "Patterns"): without parentheses around one pattern, marks and separators.
//! Each pattern has a note: in what is judged the number of its first token, and in what is given its type besides.
use crate::boxed::Boxed;
use crate::names::PlacedName;
use crate::types::{TypeNode, TypeParameter};
use mo_num::Bytes;
use mo_syntax::{Items, Literal};

/// A pattern, with its note.
#[cycle(pattern)]
pub struct Pattern<N> {
    pub note: N,
    pub form: Boxed<PatternForm<N>>,
}

/// The forms of patterns.
#[cycle(pattern)]
pub enum PatternForm<N> {
    /// `p : A`
    Annotated(Pattern<N>, TypeNode),
    /// `p or q`
    Alternative(Pattern<N>, Pattern<N>),
    /// `? p`
    Optional(Pattern<N>),
    /// `#a`
    Tag(Bytes),
    /// `#a p`
    Tagged(Bytes, Pattern<N>),
    /// A name.
    Variable(Bytes),
    /// `_`
    Wildcard,
    /// A literal, with `-` before it or not.
    Constant(bool, Literal),
    /// `(p, q)`, of no pattern or of several.
    Tuple(Items<Pattern<N>>),
    /// `{ x = p; y = q }`
    Object(Items<PatternField<N>>),
}

/// `x = p` in an object pattern. A field `x` is `x = x`.
#[cycle(pattern)]
pub struct PatternField<N> {
    pub name: PlacedName,
    pub pattern: Pattern<N>,
}

/// What stands before the body of a function or class: `<T <: A>(p, q) : B`.
pub struct Signature<N> {
    pub generics: Items<TypeParameter>,
    pub parameters: Items<Pattern<N>>,
    pub result: Option<TypeNode>,
}

// Written here, so that they are proved here, and not again in each crate that lets a pattern go.
impl<N: Drop> Drop for Pattern<N> {
    #[cycle(pattern_drop)]
    fn drop(self) {
        let Pattern {
            note: _note,
            form: _form,
        } = self;
    }
}

impl<N: Drop> Drop for PatternForm<N> {
    #[cycle(pattern_drop)]
    fn drop(self) {
        match self {
            PatternForm::Annotated(_pattern, _annotation) => {}
            PatternForm::Alternative(_first_pattern, _second_pattern) => {}
            PatternForm::Optional(_pattern) => {}
            PatternForm::Tag(_name) => {}
            PatternForm::Tagged(_name, _pattern) => {}
            PatternForm::Variable(_name) => {}
            PatternForm::Wildcard => {}
            PatternForm::Constant(_minus, _literal) => {}
            PatternForm::Tuple(_patterns) => {}
            PatternForm::Object(_fields) => {}
        }
    }
}

impl<N: Drop> Drop for PatternField<N> {
    #[cycle(pattern_drop)]
    fn drop(self) {
        let PatternField {
            name: _name,
            pattern: _pattern,
        } = self;
    }
}

impl<N: Drop> Drop for Signature<N> {
    fn drop(self) {
        let Signature {
            generics: _generics,
            parameters: _parameters,
            result: _result,
        } = self;
    }
}
