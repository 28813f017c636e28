//! The rules take the parser of inner types as a parameter, so that each is proved by itself.

ghost use Rattle.std.specs.Prelude.{◌≡◌, IfOk};
ghost use Rattle.mo_parser_base.specs.Input as input;
ghost use Rattle.mo_parser_base.specs.Input.{Reads};
ghost use Rattle.mo_parser_types.specs.Types as spec;
ghost use Rattle.mo_parser_types.specs.Nests.{Nests};
ghost use Rattle.mo_syntax.specs.declared.token.TokenKind.{TokenKind};
ghost use Rattle.mo_syntax.specs.declared.mark.Mark.{Mark};

use mo_num::Memory;
use mo_parser_base::{Cursor, Look, Stop};
use mo_syntax::{
    Items, Mark, Name, Node, Sharing, TypeExpression, TypeField, TypeItem, TypeMethod, TypeTag,
    Word,
};
use std::alloc::Global;

#[derive(Clone, Copy)]
pub(crate) struct Grammar<F> {
    pub(crate) alloc: Global,
    // How deep types may still nest.
    pub(crate) depth: usize,
    pub(crate) inner: F,
}

fn sharing(query: bool) -> Sharing
    ensures { result ≡ spec.sharing_of query }
{
    if query {
        Sharing::SharedQuery
    } else {
        Sharing::Shared
    }
}

impl<F: Fn(Global, &mut Cursor<'_>, usize, u8) -> Result<Node<TypeExpression>, Stop>> Grammar<F> {
    pub(crate) fn inner(
        &self,
        tokens: &mut Cursor<'_>,
        level: u8,
    ) -> Result<Node<TypeExpression>, Stop>
        requires { Nests self.now.depth (F.pre self.now.inner) (F.post self.now.inner) }
        ensures { Reads (spec.type_at self.now.depth level tokens.old) result tokens.new }
    {
        (self.inner)(self.alloc, tokens, self.depth, level)
    }

    /// `:` and a type, or neither.
    fn annotation(&self, tokens: &mut Cursor<'_>) -> Result<Option<Node<TypeExpression>>, Stop>
        requires { Nests self.now.depth (F.pre self.now.inner) (F.post self.now.inner) }
        ensures { Reads (input.behind (TokenKind.Mark Mark.Colon) (spec.type_at self.now.depth 0) tokens.old) result tokens.new }
    {
        if !tokens.eat_mark(Mark::Colon) {
            return Ok(None);
        }
        Ok(Some(self.inner(tokens, 0)?))
    }

    #[tactic(auto, unfolding(crate::specs::Types::field))]
    pub(crate) fn field(&self, tokens: &mut Cursor<'_>) -> Result<Node<TypeField>, Stop>
        requires { Nests self.now.depth (F.pre self.now.inner) (F.post self.now.inner) }
        ensures { Reads (spec.field (spec.type_at self.now.depth) tokens.old) result tokens.new }
    {
        let start = tokens.start();
        let mutable = tokens.eat_word(Word::Var);
        let name = tokens.identifier(self.alloc)?;
        tokens.expect_mark(Mark::Colon)?;
        let annotation = self.inner(tokens, 0)?;
        let made = TypeField {
            mutable,
            name,
            annotation,
        };
        Ok(tokens.node(self.alloc, start, made)?)
    }

    #[tactic(auto, unfolding(crate::specs::Types::item))]
    pub(crate) fn item(&self, tokens: &mut Cursor<'_>) -> Result<Node<TypeItem>, Stop>
        requires { Nests self.now.depth (F.pre self.now.inner) (F.post self.now.inner) }
        ensures { Reads (spec.item (spec.type_at self.now.depth) tokens.old) result tokens.new }
    {
        let start = tokens.start();
        let name = tokens.label(self.alloc)?;
        let annotation = self.inner(tokens, 0)?;
        Ok(tokens.node(self.alloc, start, TypeItem { name, annotation })?)
    }

    #[tactic(auto, unfolding(crate::specs::Types::method))]
    pub(crate) fn method(&self, tokens: &mut Cursor<'_>) -> Result<Node<TypeMethod>, Stop>
        requires { Nests self.now.depth (F.pre self.now.inner) (F.post self.now.inner) }
        ensures { Reads (spec.method (spec.type_at self.now.depth) tokens.old) result tokens.new }
    {
        let start = tokens.start();
        let name = tokens.identifier(self.alloc)?;
        tokens.expect_mark(Mark::Colon)?;
        let annotation = self.inner(tokens, 0)?;
        Ok(tokens.node(self.alloc, start, TypeMethod { name, annotation })?)
    }

    #[tactic(auto, unfolding(crate::specs::Types::tag))]
    pub(crate) fn tag(&self, tokens: &mut Cursor<'_>) -> Result<Node<TypeTag>, Stop>
        requires { Nests self.now.depth (F.pre self.now.inner) (F.post self.now.inner) }
        ensures { Reads (spec.tag (spec.type_at self.now.depth) tokens.old) result tokens.new }
    {
        let start = tokens.start();
        tokens.expect_mark(Mark::Tag)?;
        let name = tokens.identifier(self.alloc)?;
        let payload = self.annotation(tokens)?;
        Ok(tokens.node(self.alloc, start, TypeTag { name, payload })?)
    }

    #[tactic(auto, unfolding(crate::specs::Types::arguments))]
    fn arguments(
        &self,
        tokens: &mut Cursor<'_>,
    ) -> Result<Option<Items<Node<TypeExpression>>>, Stop>
        requires { Nests self.now.depth (F.pre self.now.inner) (F.post self.now.inner) }
        ensures { Reads (spec.arguments (spec.type_at self.now.depth) tokens.old) result tokens.new }
    {
        if !tokens.eat_mark(Mark::AngleOpen) {
            return Ok(None);
        }
        Ok(Some(self.types(tokens)?))
    }

    #[tactic(auto, unfolding(crate::specs::Types::named))]
    fn named(&self, tokens: &mut Cursor<'_>) -> Result<TypeExpression, Stop>
        requires { Nests self.now.depth (F.pre self.now.inner) (F.post self.now.inner) }
        ensures { Reads (spec.named (spec.type_at self.now.depth) tokens.old) result tokens.new }
    {
        let name = tokens.identifier(self.alloc)?;
        let arguments = self.arguments(tokens)?;
        Ok(TypeExpression::Named(name, arguments))
    }

    #[tactic(auto, unfolding(crate::specs::Types::parenthesized))]
    fn parenthesized(&self, tokens: &mut Cursor<'_>) -> Result<TypeExpression, Stop>
        requires { Nests self.now.depth (F.pre self.now.inner) (F.post self.now.inner) }
        ensures { Reads (spec.parenthesized (spec.type_at self.now.depth) tokens.old) result tokens.new }
    {
        Ok(TypeExpression::Parenthesized(self.items(tokens)?))
    }

    #[tactic(auto, unfolding(crate::specs::Types::array))]
    fn array(&self, tokens: &mut Cursor<'_>) -> Result<TypeExpression, Stop>
        requires { Nests self.now.depth (F.pre self.now.inner) (F.post self.now.inner) }
        ensures { Reads (spec.array (spec.type_at self.now.depth) tokens.old) result tokens.new }
    {
        let mutable = tokens.eat_word(Word::Var);
        let a = self.inner(tokens, 0)?;
        tokens.expect_mark(Mark::BracketClose)?;
        Ok(TypeExpression::Array(mutable, a))
    }

    #[tactic(auto, unfolding(crate::specs::Types::object))]
    fn object(&self, tokens: &mut Cursor<'_>, word: bool) -> Result<TypeExpression, Stop>
        requires { Nests self.now.depth (F.pre self.now.inner) (F.post self.now.inner) }
        ensures { Reads (spec.object (spec.type_at self.now.depth) word tokens.old) result tokens.new }
    {
        let (fields, last) = self.fields(tokens)?;
        Ok(TypeExpression::Object(word, fields, last))
    }

    #[tactic(auto, unfolding(crate::specs::Types::variant))]
    fn variant(&self, tokens: &mut Cursor<'_>) -> Result<TypeExpression, Stop>
        requires { Nests self.now.depth (F.pre self.now.inner) (F.post self.now.inner) }
        ensures { Reads (spec.variant (spec.type_at self.now.depth) tokens.old) result tokens.new }
    {
        let (tags, last) = self.tags(tokens)?;
        Ok(TypeExpression::Variant(tags, last))
    }

    #[tactic(auto, unfolding(crate::specs::Types::actor))]
    fn actor(&self, tokens: &mut Cursor<'_>) -> Result<TypeExpression, Stop>
        requires { Nests self.now.depth (F.pre self.now.inner) (F.post self.now.inner) }
        ensures { Reads (spec.actor (spec.type_at self.now.depth) tokens.old) result tokens.new }
    {
        tokens.expect_mark(Mark::BraceOpen)?;
        let (methods, last) = self.methods(tokens)?;
        Ok(TypeExpression::Actor(methods, last))
    }

    #[tactic(auto, unfolding(crate::specs::Types::braced))]
    fn braced(&self, tokens: &mut Cursor<'_>) -> Result<TypeExpression, Stop>
        requires { Nests self.now.depth (F.pre self.now.inner) (F.post self.now.inner) }
        ensures { Reads (spec.braced (spec.type_at self.now.depth) tokens.old) result tokens.new }
    {
        match tokens.peek() {
            Look::Mark(Mark::Concat) => {
                tokens.skip();
                tokens.expect_mark(Mark::BraceClose)?;
                Ok(TypeExpression::EmptyVariant)
            }
            Look::Mark(Mark::Tag) => self.variant(tokens),
            _ => self.object(tokens, false),
        }
    }

    #[tactic(auto, unfolding(crate::specs::Types::word_object))]
    fn word_object(&self, tokens: &mut Cursor<'_>) -> Result<TypeExpression, Stop>
        requires { Nests self.now.depth (F.pre self.now.inner) (F.post self.now.inner) }
        ensures { Reads (spec.word_object (spec.type_at self.now.depth) tokens.old) result tokens.new }
    {
        tokens.expect_mark(Mark::BraceOpen)?;
        self.object(tokens, true)
    }

    #[tactic(auto, unfolding(crate::specs::Types::layer))]
    fn layer(&self, tokens: &mut Cursor<'_>) -> Result<TypeExpression, Stop>
        requires { Nests self.now.depth (F.pre self.now.inner) (F.post self.now.inner) }
        ensures { Reads (spec.layer (spec.type_at self.now.depth) tokens.old) result tokens.new }
    {
        match tokens.peek() {
            Look::Identifier => self.named(tokens),
            Look::Mark(Mark::Question) => {
                tokens.skip();
                Ok(TypeExpression::Optional(self.inner(tokens, 1)?))
            }
            Look::Reserved(Word::Async) => {
                tokens.skip();
                Ok(TypeExpression::Async(self.inner(tokens, 1)?))
            }
            Look::Mark(Mark::ParenOpen) => {
                tokens.skip();
                self.parenthesized(tokens)
            }
            Look::Mark(Mark::BracketOpen) => {
                tokens.skip();
                self.array(tokens)
            }
            Look::Mark(Mark::BraceOpen) => {
                tokens.skip();
                self.braced(tokens)
            }
            Look::Reserved(Word::Object) => {
                tokens.skip();
                self.word_object(tokens)
            }
            Look::Reserved(Word::Actor) => {
                tokens.skip();
                self.actor(tokens)
            }
            _ => Err(Stop::Refused),
        }
    }

    fn prefix(&self, tokens: &mut Cursor<'_>) -> Result<Node<TypeExpression>, Stop>
        requires { Nests self.now.depth (F.pre self.now.inner) (F.post self.now.inner) }
        ensures { Reads (spec.layer (spec.type_at self.now.depth) tokens.old) result tokens.new }
    {
        let start = tokens.start();
        let made = self.layer(tokens)?;
        Ok(tokens.node(self.alloc, start, made)?)
    }

    #[tactic(auto, unfolding(crate::specs::Types::shared))]
    fn shared(&self, tokens: &mut Cursor<'_>, start: u32) -> Result<Node<TypeExpression>, Stop>
        requires { Nests self.now.depth (F.pre self.now.inner) (F.post self.now.inner) }
        ensures { Reads (spec.shared (spec.type_at self.now.depth) tokens.old) result tokens.new }
    {
        let query = tokens.eat_word(Word::Query);
        let a = self.prefix(tokens)?;
        tokens.expect_mark(Mark::Arrow)?;
        let b = self.inner(tokens, 0)?;
        let made = TypeExpression::Function(sharing(query), a, b);
        Ok(tokens.node(self.alloc, start, made)?)
    }

    /// `->` and a type, or neither.
    fn result(&self, tokens: &mut Cursor<'_>) -> Result<Option<Node<TypeExpression>>, Stop>
        requires { Nests self.now.depth (F.pre self.now.inner) (F.post self.now.inner) }
        ensures { Reads (input.behind (TokenKind.Mark Mark.Arrow) (spec.type_at self.now.depth 0) tokens.old) result tokens.new }
    {
        if !tokens.eat_mark(Mark::Arrow) {
            return Ok(None);
        }
        Ok(Some(self.inner(tokens, 0)?))
    }

    fn joined(
        &self,
        tokens: &Cursor<'_>,
        start: u32,
        a: Node<TypeExpression>,
        b: Option<Node<TypeExpression>>,
    ) -> Result<Node<TypeExpression>, Memory>
        ensures { IfOk result (λ made. made ≡ spec.joined a b) }
    {
        match b {
            None => Ok(a),
            Some(b) => {
                let made = TypeExpression::Function(Sharing::Local, a, b);
                tokens.node(self.alloc, start, made)
            }
        }
    }

    #[tactic(auto, unfolding(crate::specs::Types::local))]
    fn local(&self, tokens: &mut Cursor<'_>, start: u32) -> Result<Node<TypeExpression>, Stop>
        requires { Nests self.now.depth (F.pre self.now.inner) (F.post self.now.inner) }
        ensures { Reads (spec.local (spec.type_at self.now.depth) tokens.old) result tokens.new }
    {
        let a = self.prefix(tokens)?;
        let b = self.result(tokens)?;
        Ok(self.joined(tokens, start, a, b)?)
    }

    #[tactic(auto, unfolding(crate::specs::Types::whole))]
    fn whole(&self, tokens: &mut Cursor<'_>) -> Result<Node<TypeExpression>, Stop>
        requires { Nests self.now.depth (F.pre self.now.inner) (F.post self.now.inner) }
        ensures { Reads (spec.whole (spec.type_at self.now.depth) tokens.old) result tokens.new }
    {
        let start = tokens.start();
        if tokens.eat_word(Word::Shared) {
            return self.shared(tokens, start);
        }
        self.local(tokens, start)
    }

    #[tactic(auto, unfolding(crate::specs::Types::level))]
    pub(crate) fn level(
        &self,
        tokens: &mut Cursor<'_>,
        level: u8,
    ) -> Result<Node<TypeExpression>, Stop>
        requires { Nests self.now.depth (F.pre self.now.inner) (F.post self.now.inner) }
        ensures { Reads (spec.level (spec.type_at self.now.depth) level tokens.old) result tokens.new }
    {
        if level == 0 {
            self.whole(tokens)
        } else {
            self.prefix(tokens)
        }
    }
}
