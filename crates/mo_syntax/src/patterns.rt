//! Patterns, as they are written (Motoko language manual, "Patterns").
use crate::items::Items;
use crate::literal::Literal;
use crate::name::Name;
use crate::node::Node;
use crate::types::TypeExpression;

/// A pattern.
#[cycle(pattern)]
pub enum Pattern {
    /// `p : A`
    Annotated(Node<Pattern>, Node<TypeExpression>),
    /// `p or q`
    Alternative(Node<Pattern>, Node<Pattern>),
    /// `? p`
    Optional(Node<Pattern>),
    /// `#a`, or `#a p`
    Tagged(Name, Option<Node<Pattern>>),
    /// A name.
    Variable(Name),
    /// `_`
    Wildcard,
    /// A literal, with `-` before it or not.
    Constant(bool, Literal),
    /// `( p, q )`. One pattern in parentheses is the pattern itself.
    Parenthesized(Items<Node<Pattern>>),
    /// `{ x = p; y }`, with a last `;` or not.
    Object(Items<Node<PatternField>>, bool),
}

/// `x`, or `x = p`, in an object pattern.
#[cycle(pattern)]
pub struct PatternField {
    pub name: Name,
    pub pattern: Option<Node<Pattern>>,
}

/// The parameters of a function or class.
pub enum Parameters {
    /// `( p, q )`
    List(Items<Node<Pattern>>),
    /// A name alone.
    Single(Name),
}

// Written here, so that they are proved here, and not again in each crate that lets a pattern go.
impl Drop for Pattern {
    #[cycle(pattern_drop)]
    fn drop(self) {
        match self {
            Pattern::Annotated(_pattern, _annotation) => {}
            Pattern::Alternative(_first_pattern, _second_pattern) => {}
            Pattern::Optional(_pattern) => {}
            Pattern::Tagged(_name, _pattern) => {}
            Pattern::Variable(_name) => {}
            Pattern::Wildcard => {}
            Pattern::Constant(_flag, _literal) => {}
            Pattern::Parenthesized(_patterns) => {}
            Pattern::Object(_fields, _flag) => {}
        }
    }
}

impl Drop for PatternField {
    #[cycle(pattern_drop)]
    fn drop(self) {
        let PatternField {
            name: _name,
            pattern: _pattern,
        } = self;
    }
}

impl Drop for Parameters {
    fn drop(self) {
        match self {
            Parameters::List(_patterns) => {}
            Parameters::Single(_name) => {}
        }
    }
}
