//! The layers of declarations, and of cases and fields.
ghost use Rattle.std.specs.Prelude.{◌≡◌, ◌++◌, ◌∷◌, [], OnOk, map, option_map};
ghost use Rattle.mo_syntax.specs.Writing as writing;
ghost use Rattle.mo_syntax.specs.Writing.{angles, annotation, braces, led, marked, semicolons};
ghost use Rattle.mo_syntax.specs.TypeGrammar.{type_parameters_tokens, type_tokens};
ghost use Rattle.mo_syntax.specs.PatternGrammar.{parameters_tokens, pattern_tokens};
ghost use Rattle.mo_syntax.specs.ExpressionGrammar.{case_tokens, declaration_field_tokens, declaration_tokens, expression_field_tokens, expression_tokens, signature, visibility_tokens};
ghost use Rattle.mo_syntax.specs.declared.mark.Mark.{Mark};
ghost use Rattle.mo_syntax.specs.declared.token.TokenKind.{TokenKind};
ghost use Rattle.mo_syntax.specs.declared.word.Word.{Word};
ghost use Rattle.mo_tokens.specs.Writes.{Writes};

use crate::leaves::{put_mark, put_name, put_word, put_word_if};
use crate::operators::put_visibility;
use crate::part::Part;
use crate::pattern_writing::{put_parameters, put_pattern, put_signature};
use crate::type_writing::{put_annotation, put_names, put_type, put_type_parameters};
use crate::writer::Writer;
use mo_num::Memory;
use mo_syntax::{
    Case, Declaration, DeclarationField, Expression, ExpressionField, Items, Kinds, Mark, Name,
    Node, Parameters, Pattern, TypeExpression, TypeParameter, Visibility, Word,
};
use std::alloc::Global;

impl<F: Fn(Global, usize, Part<'_>, &mut Kinds) -> Result<(), Memory>> Writer<F> {
    #[tactic(auto, unfolding(mo_syntax::specs::ExpressionGrammar::declaration_tokens, mo_syntax::specs::ExpressionGrammar::expression_tokens, mo_syntax::specs::ExpressionGrammar::declaration_field_tokens, mo_syntax::specs::ExpressionGrammar::case_tokens, mo_syntax::specs::ExpressionGrammar::expression_field_tokens))]
    pub(crate) fn put_declaration(
        &self,
        declaration: &Declaration,
        out: &mut Kinds,
    ) -> Result<(), Memory>
        requires { Writes self.now.depth (F.pre self.now.parts) (F.post self.now.parts) }
        ensures { OnOk result (out.new ≡ out.old ++ declaration_tokens declaration.now) }
    {
        match declaration {
            Declaration::Let(p, a) => self.put_let(p, a, out),
            Declaration::Var(name, kind, a) => self.put_var(name, kind, a, out),
            Declaration::Func(name, generics, parameters, annotation, equal_sign, body) =>
                self.put_func(
                    name,
                    generics,
                    parameters,
                    annotation,
                    *equal_sign,
                    body,
                    out,
                ),
            Declaration::TypeAlias(name, names, kind) => self.put_type_alias(
                name, names, kind, out,
            ),
            Declaration::Class(name, generics, parameters, fields, last) => self.put_class(
                name, generics, parameters, fields, *last, out,
            ),
            Declaration::NamedObject(name, fields, last) => self.put_named_object(
                name, fields, *last, out,
            ),
            Declaration::Evaluate(a) => self.put(a, out),
        }
    }

    fn put_let(
        &self,
        p: &Node<Pattern>,
        a: &Node<Expression>,
        out: &mut Kinds,
    ) -> Result<(), Memory>
        requires { Writes self.now.depth (F.pre self.now.parts) (F.post self.now.parts) }
        ensures { OnOk result (out.new ≡ out.old ++ (TokenKind.Reserved Word.Let ∷ pattern_tokens p.now ++ TokenKind.Mark Mark.EqualSign ∷ expression_tokens a.now)) }
    {
        put_word(out, Word::Let)?;
        put_pattern(self.alloc, p.get(), out)?;
        self.put_mark_and(Mark::EqualSign, a, out)
    }

    fn put_var(
        &self,
        name: &Name,
        kind: &Option<Node<TypeExpression>>,
        a: &Node<Expression>,
        out: &mut Kinds,
    ) -> Result<(), Memory>
        requires { Writes self.now.depth (F.pre self.now.parts) (F.post self.now.parts) }
        ensures { OnOk result (out.new ≡ out.old ++ (TokenKind.Reserved Word.Var ∷ TokenKind.Identifier name.now ∷ annotation (option_map type_tokens kind.now) ++ TokenKind.Mark Mark.EqualSign ∷ expression_tokens a.now)) }
    {
        self.put_word_name(Word::Var, name, out)?;
        put_annotation(self.alloc, kind, out)?;
        self.put_mark_and(Mark::EqualSign, a, out)
    }

    fn put_func(
        &self,
        name: &Name,
        generics: &Option<Items<TypeParameter>>,
        parameters: &Parameters,
        annotation: &Option<Node<TypeExpression>>,
        equal_sign: bool,
        body: &Node<Expression>,
        out: &mut Kinds,
    ) -> Result<(), Memory>
        requires { Writes self.now.depth (F.pre self.now.parts) (F.post self.now.parts) }
        ensures { OnOk result (out.new ≡ out.old ++ (TokenKind.Reserved Word.Func ∷ TokenKind.Identifier name.now ∷ type_parameters_tokens generics.now ++ (signature (parameters_tokens parameters.now) (option_map type_tokens annotation.now) equal_sign ++ expression_tokens body.now))) }
    {
        self.put_word_name(Word::Func, name, out)?;
        put_type_parameters(self.alloc, generics, out)?;
        put_signature(self.alloc, parameters, annotation, equal_sign, out)?;
        self.put(body, out)
    }

    fn put_type_alias(
        &self,
        name: &Name,
        names: &Option<Items<Name>>,
        kind: &Node<TypeExpression>,
        out: &mut Kinds,
    ) -> Result<(), Memory>
        requires { Writes self.now.depth (F.pre self.now.parts) (F.post self.now.parts) }
        ensures { OnOk result (out.new ≡ out.old ++ (TokenKind.Reserved Word.TypeWord ∷ TokenKind.Identifier name.now ∷ angles (option_map (map (λ y. TokenKind.Identifier y ∷ [])) names.now) ++ TokenKind.Mark Mark.EqualSign ∷ type_tokens kind.now)) }
    {
        self.put_word_name(Word::TypeWord, name, out)?;
        put_names(self.alloc, names, out)?;
        put_mark(out, Mark::EqualSign)?;
        put_type(self.alloc, kind.get(), out)
    }

    fn put_class(
        &self,
        name: &Name,
        generics: &Option<Items<TypeParameter>>,
        parameters: &Parameters,
        fields: &Items<Node<DeclarationField>>,
        last: bool,
        out: &mut Kinds,
    ) -> Result<(), Memory>
        requires { Writes self.now.depth (F.pre self.now.parts) (F.post self.now.parts) }
        ensures { OnOk result (out.new ≡ out.old ++ (TokenKind.Reserved Word.Class ∷ TokenKind.Identifier name.now ∷ type_parameters_tokens generics.now ++ (parameters_tokens parameters.now ++ braces (semicolons (map declaration_field_tokens fields.now) last)))) }
    {
        self.put_word_name(Word::Class, name, out)?;
        put_type_parameters(self.alloc, generics, out)?;
        put_parameters(self.alloc, parameters, out)?;
        self.put_members(fields, last, out)
    }

    fn put_named_object(
        &self,
        name: &Name,
        fields: &Items<Node<DeclarationField>>,
        last: bool,
        out: &mut Kinds,
    ) -> Result<(), Memory>
        requires { Writes self.now.depth (F.pre self.now.parts) (F.post self.now.parts) }
        ensures { OnOk result (out.new ≡ out.old ++ TokenKind.Reserved Word.Object ∷ TokenKind.Identifier name.now ∷ braces (semicolons (map declaration_field_tokens fields.now) last)) }
    {
        self.put_word_name(Word::Object, name, out)?;
        self.put_members(fields, last, out)
    }

    #[tactic(auto, unfolding(mo_syntax::specs::ExpressionGrammar::declaration_tokens, mo_syntax::specs::ExpressionGrammar::expression_tokens, mo_syntax::specs::ExpressionGrammar::declaration_field_tokens, mo_syntax::specs::ExpressionGrammar::case_tokens, mo_syntax::specs::ExpressionGrammar::expression_field_tokens))]
    pub(crate) fn put_case(&self, case: &Case, out: &mut Kinds) -> Result<(), Memory>
        requires { Writes self.now.depth (F.pre self.now.parts) (F.post self.now.parts) }
        ensures { OnOk result (out.new ≡ out.old ++ case_tokens case.now) }
    {
        self.put_choice(&case.pattern, &case.body, out)
    }

    fn put_choice(
        &self,
        p: &Node<Pattern>,
        a: &Node<Expression>,
        out: &mut Kinds,
    ) -> Result<(), Memory>
        requires { Writes self.now.depth (F.pre self.now.parts) (F.post self.now.parts) }
        ensures { OnOk result (out.new ≡ out.old ++ (TokenKind.Reserved Word.Case ∷ pattern_tokens p.now ++ expression_tokens a.now)) }
    {
        put_word(out, Word::Case)?;
        put_pattern(self.alloc, p.get(), out)?;
        self.put(a, out)
    }

    #[tactic(auto, unfolding(mo_syntax::specs::ExpressionGrammar::declaration_tokens, mo_syntax::specs::ExpressionGrammar::expression_tokens, mo_syntax::specs::ExpressionGrammar::declaration_field_tokens, mo_syntax::specs::ExpressionGrammar::case_tokens, mo_syntax::specs::ExpressionGrammar::expression_field_tokens))]
    pub(crate) fn put_expression_field(
        &self,
        field: &ExpressionField,
        out: &mut Kinds,
    ) -> Result<(), Memory>
        requires { Writes self.now.depth (F.pre self.now.parts) (F.post self.now.parts) }
        ensures { OnOk result (out.new ≡ out.old ++ expression_field_tokens field.now) }
    {
        self.put_entry(
            field.mutable,
            &field.name,
            &field.annotation,
            &field.value,
            out,
        )
    }

    fn put_entry(
        &self,
        mutable: bool,
        name: &Name,
        annotation: &Option<Node<TypeExpression>>,
        value: &Option<Node<Expression>>,
        out: &mut Kinds,
    ) -> Result<(), Memory>
        requires { Writes self.now.depth (F.pre self.now.parts) (F.post self.now.parts) }
        ensures { OnOk result (out.new ≡ out.old ++ (marked mutable (TokenKind.Reserved Word.Var) ++ (TokenKind.Identifier name.now ∷ writing.annotation (option_map type_tokens annotation.now) ++ led (TokenKind.Mark Mark.EqualSign) (option_map expression_tokens value.now)))) }
    {
        put_word_if(out, mutable, Word::Var)?;
        put_name(self.alloc, out, name)?;
        put_annotation(self.alloc, annotation, out)?;
        self.put_value(value, out)
    }

    #[tactic(auto, unfolding(mo_syntax::specs::ExpressionGrammar::declaration_tokens, mo_syntax::specs::ExpressionGrammar::expression_tokens, mo_syntax::specs::ExpressionGrammar::declaration_field_tokens, mo_syntax::specs::ExpressionGrammar::case_tokens, mo_syntax::specs::ExpressionGrammar::expression_field_tokens))]
    pub(crate) fn put_declaration_field(
        &self,
        field: &DeclarationField,
        out: &mut Kinds,
    ) -> Result<(), Memory>
        requires { Writes self.now.depth (F.pre self.now.parts) (F.post self.now.parts) }
        ensures { OnOk result (out.new ≡ out.old ++ declaration_field_tokens field.now) }
    {
        self.put_visible(field.visibility, &field.declaration, out)
    }

    fn put_visible(
        &self,
        visibility: Option<Visibility>,
        declaration: &Node<Declaration>,
        out: &mut Kinds,
    ) -> Result<(), Memory>
        requires { Writes self.now.depth (F.pre self.now.parts) (F.post self.now.parts) }
        ensures { OnOk result (out.new ≡ out.old ++ (visibility_tokens visibility ++ declaration_tokens declaration.now)) }
    {
        put_visibility(visibility, out)?;
        self.put_declared(declaration, out)
    }
}
