//! The layers of expressions that begin with a word.
ghost use Rattle.std.specs.Prelude.{◌≡◌, ◌++◌, ◌∷◌, [], OnOk, map, option_map};
ghost use Rattle.mo_syntax.specs.Writing.{annotation, braces, led, optional, parens, semicolons};
ghost use Rattle.mo_syntax.specs.TypeGrammar.{type_tokens};
ghost use Rattle.mo_syntax.specs.PatternGrammar.{parameters_tokens, pattern_tokens};
ghost use Rattle.mo_syntax.specs.ExpressionGrammar.{case_tokens, declaration_field_tokens, expression_tokens, signature};
ghost use Rattle.mo_syntax.specs.declared.mark.Mark.{Mark};
ghost use Rattle.mo_syntax.specs.declared.token.TokenKind.{TokenKind};
ghost use Rattle.mo_syntax.specs.declared.word.Word.{Word};
ghost use Rattle.mo_tokens.specs.Writes.{Writes};

use crate::leaves::{put_end, put_mark, put_name, put_word};
use crate::part::Part;
use crate::pattern_writing::{put_pattern, put_signature};
use crate::type_writing::put_annotation;
use crate::writer::Writer;
use mo_num::Memory;
use mo_syntax::{
    Case, DeclarationField, Expression, Items, Kinds, Mark, Name, Node, Parameters, Pattern,
    TypeExpression, Word,
};
use std::alloc::Global;

impl<F: Fn(Global, usize, Part<'_>, &mut Kinds) -> Result<(), Memory>> Writer<F> {
    pub(crate) fn put_word_and(
        &self,
        word: Word,
        a: &Node<Expression>,
        out: &mut Kinds,
    ) -> Result<(), Memory>
        requires { Writes self.now.depth (F.pre self.now.parts) (F.post self.now.parts) }
        ensures { OnOk result (out.new ≡ out.old ++ TokenKind.Reserved word ∷ expression_tokens a.now) }
    {
        put_word(out, word)?;
        self.put(a, out)
    }

    pub(crate) fn put_if(
        &self,
        condition: &Node<Expression>,
        a: &Node<Expression>,
        otherwise: &Option<Node<Expression>>,
        out: &mut Kinds,
    ) -> Result<(), Memory>
        requires { Writes self.now.depth (F.pre self.now.parts) (F.post self.now.parts) }
        ensures { OnOk result (out.new ≡ out.old ++ (TokenKind.Reserved Word.If ∷ expression_tokens condition.now ++ (expression_tokens a.now ++ led (TokenKind.Reserved Word.Else) (option_map expression_tokens otherwise.now)))) }
    {
        self.put_word_and(Word::If, condition, out)?;
        self.put(a, out)?;
        self.put_led(Word::Else, otherwise, out)
    }

    pub(crate) fn put_switch(
        &self,
        a: &Node<Expression>,
        cases: &Items<Node<Case>>,
        last: bool,
        out: &mut Kinds,
    ) -> Result<(), Memory>
        requires { Writes self.now.depth (F.pre self.now.parts) (F.post self.now.parts) }
        ensures { OnOk result (out.new ≡ out.old ++ (TokenKind.Reserved Word.Switch ∷ expression_tokens a.now ++ braces (semicolons (map case_tokens cases.now) last))) }
    {
        self.put_word_and(Word::Switch, a, out)?;
        put_mark(out, Mark::BraceOpen)?;
        self.put_cases(cases.as_slice(), out)?;
        put_end(last, out)
    }

    pub(crate) fn put_while(
        &self,
        condition: &Node<Expression>,
        a: &Node<Expression>,
        out: &mut Kinds,
    ) -> Result<(), Memory>
        requires { Writes self.now.depth (F.pre self.now.parts) (F.post self.now.parts) }
        ensures { OnOk result (out.new ≡ out.old ++ (TokenKind.Reserved Word.While ∷ expression_tokens condition.now ++ expression_tokens a.now)) }
    {
        self.put_word_and(Word::While, condition, out)?;
        self.put(a, out)
    }

    pub(crate) fn put_loop(
        &self,
        a: &Node<Expression>,
        condition: &Option<Node<Expression>>,
        out: &mut Kinds,
    ) -> Result<(), Memory>
        requires { Writes self.now.depth (F.pre self.now.parts) (F.post self.now.parts) }
        ensures { OnOk result (out.new ≡ out.old ++ (TokenKind.Reserved Word.Loop ∷ expression_tokens a.now ++ led (TokenKind.Reserved Word.While) (option_map expression_tokens condition.now))) }
    {
        self.put_word_and(Word::Loop, a, out)?;
        self.put_led(Word::While, condition, out)
    }

    // What a `for` goes over.
    fn put_binding(
        &self,
        p: &Node<Pattern>,
        a: &Node<Expression>,
        out: &mut Kinds,
    ) -> Result<(), Memory>
        requires { Writes self.now.depth (F.pre self.now.parts) (F.post self.now.parts) }
        ensures { OnOk result (out.new ≡ out.old ++ (parens (pattern_tokens p.now ++ TokenKind.Reserved Word.In ∷ expression_tokens a.now))) }
    {
        put_mark(out, Mark::ParenOpen)?;
        put_pattern(self.alloc, p.get(), out)?;
        self.put_word_and(Word::In, a, out)?;
        put_mark(out, Mark::ParenClose)
    }

    pub(crate) fn put_for(
        &self,
        p: &Node<Pattern>,
        a: &Node<Expression>,
        b: &Node<Expression>,
        out: &mut Kinds,
    ) -> Result<(), Memory>
        requires { Writes self.now.depth (F.pre self.now.parts) (F.post self.now.parts) }
        ensures { OnOk result (out.new ≡ out.old ++ (TokenKind.Reserved Word.For ∷ parens (pattern_tokens p.now ++ TokenKind.Reserved Word.In ∷ expression_tokens a.now) ++ expression_tokens b.now)) }
    {
        put_word(out, Word::For)?;
        self.put_binding(p, a, out)?;
        self.put(b, out)
    }

    pub(crate) fn put_word_name(
        &self,
        word: Word,
        name: &Name,
        out: &mut Kinds,
    ) -> Result<(), Memory>
        ensures { OnOk result (out.new ≡ out.old ++ TokenKind.Reserved word ∷ TokenKind.Identifier name.now ∷ []) }
    {
        put_word(out, word)?;
        put_name(self.alloc, out, name)
    }

    pub(crate) fn put_label(
        &self,
        name: &Name,
        kind: &Option<Node<TypeExpression>>,
        a: &Node<Expression>,
        out: &mut Kinds,
    ) -> Result<(), Memory>
        requires { Writes self.now.depth (F.pre self.now.parts) (F.post self.now.parts) }
        ensures { OnOk result (out.new ≡ out.old ++ (TokenKind.Reserved Word.Label ∷ TokenKind.Identifier name.now ∷ annotation (option_map type_tokens kind.now) ++ expression_tokens a.now)) }
    {
        self.put_word_name(Word::Label, name, out)?;
        put_annotation(self.alloc, kind, out)?;
        self.put(a, out)
    }

    pub(crate) fn put_break(
        &self,
        name: &Name,
        a: &Option<Node<Expression>>,
        out: &mut Kinds,
    ) -> Result<(), Memory>
        requires { Writes self.now.depth (F.pre self.now.parts) (F.post self.now.parts) }
        ensures { OnOk result (out.new ≡ out.old ++ TokenKind.Reserved Word.Break ∷ TokenKind.Identifier name.now ∷ optional (option_map expression_tokens a.now)) }
    {
        self.put_word_name(Word::Break, name, out)?;
        self.put_optional(a, out)
    }

    pub(crate) fn put_return(
        &self,
        a: &Option<Node<Expression>>,
        out: &mut Kinds,
    ) -> Result<(), Memory>
        requires { Writes self.now.depth (F.pre self.now.parts) (F.post self.now.parts) }
        ensures { OnOk result (out.new ≡ out.old ++ TokenKind.Reserved Word.Return ∷ optional (option_map expression_tokens a.now)) }
    {
        put_word(out, Word::Return)?;
        self.put_optional(a, out)
    }

    pub(crate) fn put_do_optional(
        &self,
        a: &Node<Expression>,
        out: &mut Kinds,
    ) -> Result<(), Memory>
        requires { Writes self.now.depth (F.pre self.now.parts) (F.post self.now.parts) }
        ensures { OnOk result (out.new ≡ out.old ++ TokenKind.Reserved Word.Do ∷ TokenKind.Mark Mark.Question ∷ expression_tokens a.now) }
    {
        put_word(out, Word::Do)?;
        self.put_mark_and(Mark::Question, a, out)
    }

    pub(crate) fn put_try(
        &self,
        a: &Node<Expression>,
        p: &Node<Pattern>,
        b: &Node<Expression>,
        out: &mut Kinds,
    ) -> Result<(), Memory>
        requires { Writes self.now.depth (F.pre self.now.parts) (F.post self.now.parts) }
        ensures { OnOk result (out.new ≡ out.old ++ (TokenKind.Reserved Word.Try ∷ expression_tokens a.now ++ (TokenKind.Reserved Word.Catch ∷ pattern_tokens p.now ++ expression_tokens b.now))) }
    {
        self.put_word_and(Word::Try, a, out)?;
        put_word(out, Word::Catch)?;
        put_pattern(self.alloc, p.get(), out)?;
        self.put(b, out)
    }

    pub(crate) fn put_function(
        &self,
        parameters: &Parameters,
        annotation: &Option<Node<TypeExpression>>,
        equal_sign: bool,
        body: &Node<Expression>,
        out: &mut Kinds,
    ) -> Result<(), Memory>
        requires { Writes self.now.depth (F.pre self.now.parts) (F.post self.now.parts) }
        ensures { OnOk result (out.new ≡ out.old ++ (TokenKind.Reserved Word.Func ∷ signature (parameters_tokens parameters.now) (option_map type_tokens annotation.now) equal_sign ++ expression_tokens body.now)) }
    {
        put_word(out, Word::Func)?;
        put_signature(self.alloc, parameters, annotation, equal_sign, out)?;
        self.put(body, out)
    }

    pub(crate) fn put_members(
        &self,
        fields: &Items<Node<DeclarationField>>,
        last: bool,
        out: &mut Kinds,
    ) -> Result<(), Memory>
        requires { Writes self.now.depth (F.pre self.now.parts) (F.post self.now.parts) }
        ensures { OnOk result (out.new ≡ out.old ++ braces (semicolons (map declaration_field_tokens fields.now) last)) }
    {
        put_mark(out, Mark::BraceOpen)?;
        self.put_declaration_fields(fields.as_slice(), out)?;
        put_end(last, out)
    }

    pub(crate) fn put_object_block(
        &self,
        fields: &Items<Node<DeclarationField>>,
        last: bool,
        out: &mut Kinds,
    ) -> Result<(), Memory>
        requires { Writes self.now.depth (F.pre self.now.parts) (F.post self.now.parts) }
        ensures { OnOk result (out.new ≡ out.old ++ TokenKind.Reserved Word.Object ∷ braces (semicolons (map declaration_field_tokens fields.now) last)) }
    {
        put_word(out, Word::Object)?;
        self.put_members(fields, last, out)
    }
}
