//! The layers of types: each is written over the writing of the types in it.
ghost use Rattle.std.specs.Prelude.{◌≡◌, ◌++◌, ◌∷◌, [], OnOk, map, option_map};
ghost use Rattle.mo_syntax.specs.Writing.{angles, braces, brackets, commas, marked, parens, semicolons, separated};
ghost use Rattle.mo_syntax.specs.TypeGrammar.{type_tokens, type_field_tokens, type_item_tokens, type_method_tokens, type_tag_tokens, sharing_tokens, item_name};
ghost use Rattle.mo_tokens.specs.TypeWrites.{Writes};
ghost use Rattle.mo_syntax.specs.declared.token.TokenKind.{TokenKind};
ghost use Rattle.mo_syntax.specs.declared.mark.Mark.{Mark};
ghost use Rattle.mo_syntax.specs.declared.word.Word.{Word};

use crate::leaves::{put_end, put_mark, put_name, put_tag, put_word, put_word_if};
use mo_num::Memory;
use mo_syntax::{
    Items, Kinds, Mark, Name, Node, Sharing, TypeExpression, TypeField, TypeItem, TypeMethod,
    TypeTag, Word,
};
use std::alloc::Global;

fn put_sharing(sharing: Sharing, out: &mut Kinds) -> Result<(), Memory>
    ensures { OnOk result (out.new ≡ out.old ++ sharing_tokens sharing) }
{
    match sharing {
        Sharing::Local => Ok(()),
        Sharing::Shared => put_word(out, Word::Shared),
        Sharing::SharedQuery => {
            put_word(out, Word::Shared)?;
            put_word(out, Word::Query)
        }
    }
}

fn put_empty_variant(out: &mut Kinds) -> Result<(), Memory>
    ensures { OnOk result (out.new ≡ out.old ++ braces (TokenKind.Mark Mark.Concat ∷ [])) }
{
    put_mark(out, Mark::BraceOpen)?;
    put_mark(out, Mark::Concat)?;
    put_mark(out, Mark::BraceClose)
}

// A layer takes the writer of the layers below as a parameter, so that each function is proved by itself.
#[derive(Clone, Copy)]
pub(crate) struct TypeWriter<F> {
    pub alloc: Global,
    pub depth: usize,
    pub types: F,
}

impl<F: Fn(Global, usize, &TypeExpression, &mut Kinds) -> Result<(), Memory>> TypeWriter<F> {
    fn put(&self, a: &Node<TypeExpression>, out: &mut Kinds) -> Result<(), Memory>
        requires { Writes self.now.depth (F.pre self.now.types) (F.post self.now.types) }
        ensures { OnOk result (out.new ≡ out.old ++ type_tokens a.now) }
    {
        (self.types)(self.alloc, self.depth, a.get(), out)
    }

    #[tactic(auto, unfolding(mo_syntax::specs::TypeGrammar::type_tokens, mo_syntax::specs::TypeGrammar::type_field_tokens, mo_syntax::specs::TypeGrammar::type_item_tokens, mo_syntax::specs::TypeGrammar::type_method_tokens, mo_syntax::specs::TypeGrammar::type_tag_tokens))]
    pub(crate) fn put_layer(&self, a: &TypeExpression, out: &mut Kinds) -> Result<(), Memory>
        requires { Writes self.now.depth (F.pre self.now.types) (F.post self.now.types) }
        ensures { OnOk result (out.new ≡ out.old ++ type_tokens a.now) }
    {
        match a {
            TypeExpression::Function(sharing, a, b) => self.put_function(*sharing, a, b, out),
            TypeExpression::Optional(a) => self.put_optional(a, out),
            TypeExpression::Async(a) => self.put_async(a, out),
            TypeExpression::Named(name, arguments) => self.put_named(name, arguments, out),
            TypeExpression::Parenthesized(items) => self.put_parenthesized(items, out),
            TypeExpression::Array(mutable, a) => self.put_array(*mutable, a, out),
            TypeExpression::Object(word, fields, last) => self.put_object(
                *word, fields, *last, out,
            ),
            TypeExpression::EmptyVariant => put_empty_variant(out),
            TypeExpression::Variant(tags, last) => self.put_variant(tags, *last, out),
            TypeExpression::Actor(methods, last) => self.put_actor(methods, *last, out),
        }
    }

    fn put_function(
        &self,
        sharing: Sharing,
        a: &Node<TypeExpression>,
        b: &Node<TypeExpression>,
        out: &mut Kinds,
    ) -> Result<(), Memory>
        requires { Writes self.now.depth (F.pre self.now.types) (F.post self.now.types) }
        ensures { OnOk result (out.new ≡ out.old ++ (sharing_tokens sharing ++ type_tokens a.now ++ TokenKind.Mark Mark.Arrow ∷ type_tokens b.now)) }
    {
        put_sharing(sharing, out)?;
        self.put(a, out)?;
        put_mark(out, Mark::Arrow)?;
        self.put(b, out)
    }

    fn put_optional(&self, a: &Node<TypeExpression>, out: &mut Kinds) -> Result<(), Memory>
        requires { Writes self.now.depth (F.pre self.now.types) (F.post self.now.types) }
        ensures { OnOk result (out.new ≡ out.old ++ TokenKind.Mark Mark.Question ∷ type_tokens a.now) }
    {
        put_mark(out, Mark::Question)?;
        self.put(a, out)
    }

    fn put_async(&self, a: &Node<TypeExpression>, out: &mut Kinds) -> Result<(), Memory>
        requires { Writes self.now.depth (F.pre self.now.types) (F.post self.now.types) }
        ensures { OnOk result (out.new ≡ out.old ++ TokenKind.Reserved Word.Async ∷ type_tokens a.now) }
    {
        put_word(out, Word::Async)?;
        self.put(a, out)
    }

    fn put_named(
        &self,
        name: &Name,
        arguments: &Option<Items<Node<TypeExpression>>>,
        out: &mut Kinds,
    ) -> Result<(), Memory>
        requires { Writes self.now.depth (F.pre self.now.types) (F.post self.now.types) }
        ensures { OnOk result (out.new ≡ out.old ++ TokenKind.Identifier name.now ∷ angles (option_map (map type_tokens) arguments.now)) }
    {
        put_name(self.alloc, out, name)?;
        self.put_arguments(arguments, out)
    }

    pub(crate) fn put_arguments(
        &self,
        arguments: &Option<Items<Node<TypeExpression>>>,
        out: &mut Kinds,
    ) -> Result<(), Memory>
        requires { Writes self.now.depth (F.pre self.now.types) (F.post self.now.types) }
        ensures { OnOk result (out.new ≡ out.old ++ angles (option_map (map type_tokens) arguments.now)) }
    {
        match arguments {
            None => Ok(()),
            Some(arguments) => {
                put_mark(out, Mark::AngleOpen)?;
                self.put_types(arguments.as_slice(), out)?;
                put_mark(out, Mark::AngleClose)
            }
        }
    }

    fn put_parenthesized(
        &self,
        items: &Items<Node<TypeItem>>,
        out: &mut Kinds,
    ) -> Result<(), Memory>
        requires { Writes self.now.depth (F.pre self.now.types) (F.post self.now.types) }
        ensures { OnOk result (out.new ≡ out.old ++ parens (commas (map type_item_tokens items.now))) }
    {
        put_mark(out, Mark::ParenOpen)?;
        self.put_items(items.as_slice(), out)?;
        put_mark(out, Mark::ParenClose)
    }

    fn put_array(
        &self,
        mutable: bool,
        a: &Node<TypeExpression>,
        out: &mut Kinds,
    ) -> Result<(), Memory>
        requires { Writes self.now.depth (F.pre self.now.types) (F.post self.now.types) }
        ensures { OnOk result (out.new ≡ out.old ++ brackets (marked mutable (TokenKind.Reserved Word.Var) ++ type_tokens a.now)) }
    {
        put_mark(out, Mark::BracketOpen)?;
        put_word_if(out, mutable, Word::Var)?;
        self.put(a, out)?;
        put_mark(out, Mark::BracketClose)
    }

    fn put_object(
        &self,
        word: bool,
        fields: &Items<Node<TypeField>>,
        last: bool,
        out: &mut Kinds,
    ) -> Result<(), Memory>
        requires { Writes self.now.depth (F.pre self.now.types) (F.post self.now.types) }
        ensures { OnOk result (out.new ≡ out.old ++ (marked word (TokenKind.Reserved Word.Object) ++ braces (semicolons (map type_field_tokens fields.now) last))) }
    {
        put_word_if(out, word, Word::Object)?;
        put_mark(out, Mark::BraceOpen)?;
        self.put_fields(fields.as_slice(), out)?;
        put_end(last, out)
    }

    fn put_variant(
        &self,
        tags: &Items<Node<TypeTag>>,
        last: bool,
        out: &mut Kinds,
    ) -> Result<(), Memory>
        requires { Writes self.now.depth (F.pre self.now.types) (F.post self.now.types) }
        ensures { OnOk result (out.new ≡ out.old ++ braces (semicolons (map type_tag_tokens tags.now) last)) }
    {
        put_mark(out, Mark::BraceOpen)?;
        self.put_tags(tags.as_slice(), out)?;
        put_end(last, out)
    }

    fn put_actor(
        &self,
        methods: &Items<Node<TypeMethod>>,
        last: bool,
        out: &mut Kinds,
    ) -> Result<(), Memory>
        requires { Writes self.now.depth (F.pre self.now.types) (F.post self.now.types) }
        ensures { OnOk result (out.new ≡ out.old ++ TokenKind.Reserved Word.Actor ∷ braces (semicolons (map type_method_tokens methods.now) last)) }
    {
        put_word(out, Word::Actor)?;
        put_mark(out, Mark::BraceOpen)?;
        self.put_methods(methods.as_slice(), out)?;
        put_end(last, out)
    }

    fn put_types(&self, types: &[Node<TypeExpression>], out: &mut Kinds) -> Result<(), Memory>
        requires { Writes self.now.depth (F.pre self.now.types) (F.post self.now.types) }
        ensures { OnOk result (out.new ≡ out.old ++ commas (map type_tokens types.now)) }
    {
        let [first, others @ ..] = types else {
            return Ok(());
        };
        self.put(first, out)?;
        for one in others {
            put_mark(out, Mark::Comma)?;
            self.put(one, out)?;
        }
        Ok(())
    }

    fn put_items(&self, items: &[Node<TypeItem>], out: &mut Kinds) -> Result<(), Memory>
        requires { Writes self.now.depth (F.pre self.now.types) (F.post self.now.types) }
        ensures { OnOk result (out.new ≡ out.old ++ commas (map type_item_tokens items.now)) }
    {
        let [first, others @ ..] = items else {
            return Ok(());
        };
        self.put_item(first.get(), out)?;
        for one in others {
            put_mark(out, Mark::Comma)?;
            self.put_item(one.get(), out)?;
        }
        Ok(())
    }

    #[tactic(auto, unfolding(mo_syntax::specs::TypeGrammar::type_tokens, mo_syntax::specs::TypeGrammar::type_field_tokens, mo_syntax::specs::TypeGrammar::type_item_tokens, mo_syntax::specs::TypeGrammar::type_method_tokens, mo_syntax::specs::TypeGrammar::type_tag_tokens))]
    fn put_item(&self, item: &TypeItem, out: &mut Kinds) -> Result<(), Memory>
        requires { Writes self.now.depth (F.pre self.now.types) (F.post self.now.types) }
        ensures { OnOk result (out.new ≡ out.old ++ type_item_tokens item.now) }
    {
        self.put_named_item(&item.name, &item.annotation, out)
    }

    fn put_named_item(
        &self,
        name: &Option<Name>,
        a: &Node<TypeExpression>,
        out: &mut Kinds,
    ) -> Result<(), Memory>
        requires { Writes self.now.depth (F.pre self.now.types) (F.post self.now.types) }
        ensures { OnOk result (out.new ≡ out.old ++ (item_name name.now ++ type_tokens a.now)) }
    {
        match name {
            None => self.put(a, out),
            Some(name) => self.put_annotated(name, a, out),
        }
    }

    fn put_annotated(
        &self,
        name: &Name,
        a: &Node<TypeExpression>,
        out: &mut Kinds,
    ) -> Result<(), Memory>
        requires { Writes self.now.depth (F.pre self.now.types) (F.post self.now.types) }
        ensures { OnOk result (out.new ≡ out.old ++ TokenKind.Identifier name.now ∷ TokenKind.Mark Mark.Colon ∷ type_tokens a.now) }
    {
        put_name(self.alloc, out, name)?;
        put_mark(out, Mark::Colon)?;
        self.put(a, out)
    }

    fn put_fields(&self, fields: &[Node<TypeField>], out: &mut Kinds) -> Result<(), Memory>
        requires { Writes self.now.depth (F.pre self.now.types) (F.post self.now.types) }
        ensures { OnOk result (out.new ≡ out.old ++ separated (TokenKind.Mark Mark.Semicolon) (map type_field_tokens fields.now)) }
    {
        let [first, others @ ..] = fields else {
            return Ok(());
        };
        self.put_field(first.get(), out)?;
        for one in others {
            put_mark(out, Mark::Semicolon)?;
            self.put_field(one.get(), out)?;
        }
        Ok(())
    }

    #[tactic(auto, unfolding(mo_syntax::specs::TypeGrammar::type_tokens, mo_syntax::specs::TypeGrammar::type_field_tokens, mo_syntax::specs::TypeGrammar::type_item_tokens, mo_syntax::specs::TypeGrammar::type_method_tokens, mo_syntax::specs::TypeGrammar::type_tag_tokens))]
    fn put_field(&self, field: &TypeField, out: &mut Kinds) -> Result<(), Memory>
        requires { Writes self.now.depth (F.pre self.now.types) (F.post self.now.types) }
        ensures { OnOk result (out.new ≡ out.old ++ type_field_tokens field.now) }
    {
        self.put_mutable(field.mutable, &field.name, &field.annotation, out)
    }

    fn put_mutable(
        &self,
        mutable: bool,
        name: &Name,
        a: &Node<TypeExpression>,
        out: &mut Kinds,
    ) -> Result<(), Memory>
        requires { Writes self.now.depth (F.pre self.now.types) (F.post self.now.types) }
        ensures { OnOk result (out.new ≡ out.old ++ (marked mutable (TokenKind.Reserved Word.Var) ++ TokenKind.Identifier name.now ∷ TokenKind.Mark Mark.Colon ∷ type_tokens a.now)) }
    {
        put_word_if(out, mutable, Word::Var)?;
        self.put_annotated(name, a, out)
    }

    fn put_tags(&self, tags: &[Node<TypeTag>], out: &mut Kinds) -> Result<(), Memory>
        requires { Writes self.now.depth (F.pre self.now.types) (F.post self.now.types) }
        ensures { OnOk result (out.new ≡ out.old ++ separated (TokenKind.Mark Mark.Semicolon) (map type_tag_tokens tags.now)) }
    {
        let [first, others @ ..] = tags else {
            return Ok(());
        };
        self.put_tag(first.get(), out)?;
        for one in others {
            put_mark(out, Mark::Semicolon)?;
            self.put_tag(one.get(), out)?;
        }
        Ok(())
    }

    #[tactic(auto, unfolding(mo_syntax::specs::TypeGrammar::type_tokens, mo_syntax::specs::TypeGrammar::type_field_tokens, mo_syntax::specs::TypeGrammar::type_item_tokens, mo_syntax::specs::TypeGrammar::type_method_tokens, mo_syntax::specs::TypeGrammar::type_tag_tokens))]
    fn put_tag(&self, tag: &TypeTag, out: &mut Kinds) -> Result<(), Memory>
        requires { Writes self.now.depth (F.pre self.now.types) (F.post self.now.types) }
        ensures { OnOk result (out.new ≡ out.old ++ type_tag_tokens tag.now) }
    {
        match &tag.payload {
            None => put_tag(self.alloc, &tag.name, out),
            Some(a) => self.put_tagged(&tag.name, a, out),
        }
    }

    fn put_tagged(
        &self,
        name: &Name,
        a: &Node<TypeExpression>,
        out: &mut Kinds,
    ) -> Result<(), Memory>
        requires { Writes self.now.depth (F.pre self.now.types) (F.post self.now.types) }
        ensures { OnOk result (out.new ≡ out.old ++ TokenKind.Mark Mark.Tag ∷ TokenKind.Identifier name.now ∷ TokenKind.Mark Mark.Colon ∷ type_tokens a.now) }
    {
        put_mark(out, Mark::Tag)?;
        self.put_annotated(name, a, out)
    }

    fn put_methods(&self, methods: &[Node<TypeMethod>], out: &mut Kinds) -> Result<(), Memory>
        requires { Writes self.now.depth (F.pre self.now.types) (F.post self.now.types) }
        ensures { OnOk result (out.new ≡ out.old ++ separated (TokenKind.Mark Mark.Semicolon) (map type_method_tokens methods.now)) }
    {
        let [first, others @ ..] = methods else {
            return Ok(());
        };
        self.put_method(first.get(), out)?;
        for one in others {
            put_mark(out, Mark::Semicolon)?;
            self.put_method(one.get(), out)?;
        }
        Ok(())
    }

    #[tactic(auto, unfolding(mo_syntax::specs::TypeGrammar::type_tokens, mo_syntax::specs::TypeGrammar::type_field_tokens, mo_syntax::specs::TypeGrammar::type_item_tokens, mo_syntax::specs::TypeGrammar::type_method_tokens, mo_syntax::specs::TypeGrammar::type_tag_tokens))]
    fn put_method(&self, method: &TypeMethod, out: &mut Kinds) -> Result<(), Memory>
        requires { Writes self.now.depth (F.pre self.now.types) (F.post self.now.types) }
        ensures { OnOk result (out.new ≡ out.old ++ type_method_tokens method.now) }
    {
        self.put_annotated(&method.name, &method.annotation, out)
    }
}
