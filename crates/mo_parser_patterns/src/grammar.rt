//! The rules take the parser of inner patterns as a parameter, so that each is proved by itself.

ghost use Rattle.std.specs.Prelude.{◌≡◌, IfOk};
ghost use Rattle.mo_parser_base.specs.Input as input;
ghost use Rattle.mo_parser_base.specs.Input.{Reads};
ghost use Rattle.mo_parser_patterns.specs.Patterns as spec;
ghost use Rattle.mo_parser_patterns.specs.Nests.{Nests};
ghost use Rattle.mo_syntax.specs.declared.token.TokenKind.{TokenKind};
ghost use Rattle.mo_syntax.specs.declared.mark.Mark.{Mark};

use mo_num::Memory;
use mo_parser_base::{Cursor, Look, Stop};
use mo_parser_types::read_annotation;
use mo_syntax::{Mark, Node, Pattern, PatternField, TypeExpression, Word};
use std::alloc::Global;

#[derive(Clone, Copy)]
pub(crate) struct Grammar<F> {
    pub(crate) alloc: Global,
    // How deep patterns may still nest.
    pub(crate) depth: usize,
    pub(crate) inner: F,
}

/// Whether the token begins the pattern that a tag carries.
fn begins(look: Look) -> bool
    ensures { result ≡ spec.begins look }
{
    match look {
        Look::End => false,
        Look::Reserved(word) => word_begins(word),
        Look::Mark(mark) => mark_begins(mark),
        _ => true,
    }
}

fn word_begins(word: Word) -> bool
    ensures { result ≡ spec.word_begins word }
{
    match word {
        Word::True | Word::False | Word::Null => true,
        _ => false,
    }
}

fn mark_begins(mark: Mark) -> bool
    ensures { result ≡ spec.mark_begins mark }
{
    match mark {
        Mark::Question
        | Mark::Tag
        | Mark::Underscore
        | Mark::Minus
        | Mark::ParenOpen
        | Mark::BraceOpen => true,
        _ => false,
    }
}

fn annotated(
    alloc: Global,
    tokens: &Cursor<'_>,
    start: u32,
    pattern: Node<Pattern>,
    annotation: Option<Node<TypeExpression>>,
) -> Result<Node<Pattern>, Memory>
    ensures { IfOk result (λ made. made ≡ spec.annotated pattern annotation) }
{
    match annotation {
        None => Ok(pattern),
        Some(a) => tokens.node(alloc, start, Pattern::Annotated(pattern, a)),
    }
}

impl<F: Fn(Global, &mut Cursor<'_>, usize, u8) -> Result<Node<Pattern>, Stop>> Grammar<F> {
    pub(crate) fn inner(&self, tokens: &mut Cursor<'_>, level: u8) -> Result<Node<Pattern>, Stop>
        requires { Nests self.now.depth (F.pre self.now.inner) (F.post self.now.inner) }
        ensures { Reads (spec.pattern_at self.now.depth level tokens.old) result tokens.new }
    {
        (self.inner)(self.alloc, tokens, self.depth, level)
    }

    /// `=` and a pattern, or neither.
    fn value(&self, tokens: &mut Cursor<'_>) -> Result<Option<Node<Pattern>>, Stop>
        requires { Nests self.now.depth (F.pre self.now.inner) (F.post self.now.inner) }
        ensures { Reads (input.behind (TokenKind.Mark Mark.EqualSign) (spec.pattern_at self.now.depth 0) tokens.old) result tokens.new }
    {
        if !tokens.eat_mark(Mark::EqualSign) {
            return Ok(None);
        }
        Ok(Some(self.inner(tokens, 0)?))
    }

    #[tactic(auto, unfolding(crate::specs::Patterns::field))]
    pub(crate) fn field(&self, tokens: &mut Cursor<'_>) -> Result<Node<PatternField>, Stop>
        requires { Nests self.now.depth (F.pre self.now.inner) (F.post self.now.inner) }
        ensures { Reads (spec.field (spec.pattern_at self.now.depth) tokens.old) result tokens.new }
    {
        let start = tokens.start();
        let name = tokens.identifier(self.alloc)?;
        let pattern = self.value(tokens)?;
        Ok(tokens.node(self.alloc, start, PatternField { name, pattern })?)
    }

    #[tactic(auto, unfolding(crate::specs::Patterns::parenthesized))]
    fn parenthesized(&self, tokens: &mut Cursor<'_>) -> Result<Pattern, Stop>
        requires { Nests self.now.depth (F.pre self.now.inner) (F.post self.now.inner) }
        ensures { Reads (spec.parenthesized (spec.pattern_at self.now.depth) tokens.old) result tokens.new }
    {
        Ok(Pattern::Parenthesized(self.patterns(tokens)?))
    }

    #[tactic(auto, unfolding(crate::specs::Patterns::object))]
    fn object(&self, tokens: &mut Cursor<'_>) -> Result<Pattern, Stop>
        requires { Nests self.now.depth (F.pre self.now.inner) (F.post self.now.inner) }
        ensures { Reads (spec.object (spec.pattern_at self.now.depth) tokens.old) result tokens.new }
    {
        let (fields, last) = self.fields(tokens)?;
        Ok(Pattern::Object(fields, last))
    }

    #[tactic(auto, unfolding(crate::specs::Patterns::constant))]
    fn constant(&self, tokens: &mut Cursor<'_>, minus: bool) -> Result<Pattern, Stop>
        ensures { Reads (spec.constant (spec.pattern_at self.now.depth) minus tokens.old) result tokens.new }
    {
        Ok(Pattern::Constant(minus, tokens.literal(self.alloc)?))
    }

    #[tactic(auto, unfolding(crate::specs::Patterns::variable))]
    fn variable(&self, tokens: &mut Cursor<'_>) -> Result<Pattern, Stop>
        ensures { Reads (spec.variable (spec.pattern_at self.now.depth) tokens.old) result tokens.new }
    {
        Ok(Pattern::Variable(tokens.identifier(self.alloc)?))
    }

    #[tactic(auto, unfolding(crate::specs::Patterns::atom))]
    fn atom(&self, tokens: &mut Cursor<'_>) -> Result<Pattern, Stop>
        requires { Nests self.now.depth (F.pre self.now.inner) (F.post self.now.inner) }
        ensures { Reads (spec.atom (spec.pattern_at self.now.depth) tokens.old) result tokens.new }
    {
        match tokens.peek() {
            Look::Identifier => self.variable(tokens),
            Look::Mark(Mark::Underscore) => {
                tokens.skip();
                Ok(Pattern::Wildcard)
            }
            Look::Mark(Mark::Minus) => {
                tokens.skip();
                self.constant(tokens, true)
            }
            Look::Mark(Mark::ParenOpen) => {
                tokens.skip();
                self.parenthesized(tokens)
            }
            Look::Mark(Mark::BraceOpen) => {
                tokens.skip();
                self.object(tokens)
            }
            _ => self.constant(tokens, false),
        }
    }

    /// The pattern that a tag carries, if it carries one.
    #[tactic(auto, unfolding(crate::specs::Patterns::payload))]
    fn payload(&self, tokens: &mut Cursor<'_>) -> Result<Option<Node<Pattern>>, Stop>
        requires { Nests self.now.depth (F.pre self.now.inner) (F.post self.now.inner) }
        ensures { Reads (spec.payload (spec.pattern_at self.now.depth) tokens.old) result tokens.new }
    {
        if begins(tokens.peek()) {
            return Ok(Some(self.inner(tokens, 2)?));
        }
        Ok(None)
    }

    #[tactic(auto, unfolding(crate::specs::Patterns::tagged))]
    fn tagged(&self, tokens: &mut Cursor<'_>) -> Result<Pattern, Stop>
        requires { Nests self.now.depth (F.pre self.now.inner) (F.post self.now.inner) }
        ensures { Reads (spec.tagged (spec.pattern_at self.now.depth) tokens.old) result tokens.new }
    {
        let name = tokens.identifier(self.alloc)?;
        let payload = self.payload(tokens)?;
        Ok(Pattern::Tagged(name, payload))
    }

    #[tactic(auto, unfolding(crate::specs::Patterns::unary))]
    fn unary_layer(&self, tokens: &mut Cursor<'_>) -> Result<Pattern, Stop>
        requires { Nests self.now.depth (F.pre self.now.inner) (F.post self.now.inner) }
        ensures { Reads (spec.unary (spec.pattern_at self.now.depth) tokens.old) result tokens.new }
    {
        match tokens.peek() {
            Look::Mark(Mark::Question) => {
                tokens.skip();
                Ok(Pattern::Optional(self.inner(tokens, 2)?))
            }
            Look::Mark(Mark::Tag) => {
                tokens.skip();
                self.tagged(tokens)
            }
            _ => self.atom(tokens),
        }
    }

    pub(crate) fn unary(&self, tokens: &mut Cursor<'_>) -> Result<Node<Pattern>, Stop>
        requires { Nests self.now.depth (F.pre self.now.inner) (F.post self.now.inner) }
        ensures { Reads (spec.unary (spec.pattern_at self.now.depth) tokens.old) result tokens.new }
    {
        let start = tokens.start();
        let made = self.unary_layer(tokens)?;
        Ok(tokens.node(self.alloc, start, made)?)
    }

    fn atom_node(&self, tokens: &mut Cursor<'_>) -> Result<Node<Pattern>, Stop>
        requires { Nests self.now.depth (F.pre self.now.inner) (F.post self.now.inner) }
        ensures { Reads (spec.atom (spec.pattern_at self.now.depth) tokens.old) result tokens.new }
    {
        let start = tokens.start();
        let made = self.atom(tokens)?;
        Ok(tokens.node(self.alloc, start, made)?)
    }

    #[tactic(auto, unfolding(crate::specs::Patterns::whole))]
    fn whole(&self, tokens: &mut Cursor<'_>) -> Result<Node<Pattern>, Stop>
        requires { Nests self.now.depth (F.pre self.now.inner) (F.post self.now.inner) }
        ensures { Reads (spec.whole (spec.pattern_at self.now.depth) tokens.old) result tokens.new }
    {
        let start = tokens.start();
        let pattern = self.alternatives(tokens)?;
        let annotation = read_annotation(self.alloc, tokens)?;
        Ok(annotated(self.alloc, tokens, start, pattern, annotation)?)
    }

    #[tactic(auto, unfolding(crate::specs::Patterns::level))]
    pub(crate) fn level(&self, tokens: &mut Cursor<'_>, level: u8) -> Result<Node<Pattern>, Stop>
        requires { Nests self.now.depth (F.pre self.now.inner) (F.post self.now.inner) }
        ensures { Reads (spec.level (spec.pattern_at self.now.depth) level tokens.old) result tokens.new }
    {
        match level {
            0 => self.whole(tokens),
            1 | 2 => self.unary(tokens),
            _ => self.atom_node(tokens),
        }
    }
}
