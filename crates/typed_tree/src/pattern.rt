//! Typed patterns.
use crate::literal::Literal;
use mo_num::Bytes;
use mo_syntax::{Items, Node};
use mo_types::TypeId;

/// A pattern with the type that it stands on: Motoko language manual, section "Patterns". It matches values of that type
/// and of those below it.
#[cycle(pattern)]
pub struct TypedPattern {
    pub of_type: TypeId,
    pub form: Node<PatternForm>,
}

/// A pattern. The names of a pattern stand for values in the order in which they are written.
#[cycle(pattern)]
pub enum PatternForm {
    /// `_`
    Wildcard,
    /// A name.
    Bind,
    Constant(Literal),
    /// `?p`
    Present(TypedPattern),
    /// `#t p`
    Tagged(Bytes, TypedPattern),
    /// `(p, .., q)`
    Parts(Items<TypedPattern>),
    /// `{x = p; ..; y = q}`
    Fields(Items<PatternField>),
    /// `p or q`, which has no names.
    Either(TypedPattern, TypedPattern),
}

/// `x = p`
#[cycle(pattern)]
pub struct PatternField {
    pub label: Bytes,
    pub pattern: TypedPattern,
}

// Written here, so that they are proved here, and not again in each crate that lets a pattern go.
impl Drop for TypedPattern {
    #[cycle(pattern_drop)]
    fn drop(self) {
        let TypedPattern {
            of_type: _of_type,
            form: _form,
        } = self;
    }
}

impl Drop for PatternForm {
    #[cycle(pattern_drop)]
    fn drop(self) {
        match self {
            PatternForm::Wildcard => {}
            PatternForm::Bind => {}
            PatternForm::Constant(_literal) => {}
            PatternForm::Present(_of) => {}
            PatternForm::Tagged(_label, _of) => {}
            PatternForm::Parts(_parts) => {}
            PatternForm::Fields(_fields) => {}
            PatternForm::Either(_first, _second) => {}
        }
    }
}

impl Drop for PatternField {
    #[cycle(pattern_drop)]
    fn drop(self) {
        let PatternField {
            label: _label,
            pattern: _pattern,
        } = self;
    }
}
