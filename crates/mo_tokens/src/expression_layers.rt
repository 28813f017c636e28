//! The layers of expressions.
ghost use Rattle.std.specs.Prelude.{◌≡◌, ◌++◌, ◌∷◌, [], OnOk, map, option_map, Bool};
ghost use Rattle.mo_syntax.specs.Writing.{angles, annotation, braces, brackets, commas, led, marked, optional, parens, semicolons, tag};
ghost use Rattle.mo_syntax.specs.TypeGrammar.{type_tokens};
ghost use Rattle.mo_syntax.specs.ExpressionGrammar.{assignment_token, case_tokens, declaration_tokens, expression_field_tokens, expression_tokens, operator_token};
ghost use Rattle.mo_syntax.specs.declared.mark.Mark.{Mark};
ghost use Rattle.mo_syntax.specs.declared.token.TokenKind.{TokenKind};
ghost use Rattle.mo_syntax.specs.declared.word.Word.{Word};
ghost use Rattle.mo_tokens.specs.Writes.{Writes};

use crate::leaves::{
    put_end, put_literal, put_mark, put_name, put_tag, put_text, put_word, put_word_if,
};
use crate::operators::{put_assignment, put_operator};
use crate::part::Part;
use crate::type_writing::{put_annotation, put_type, put_type_arguments};
use crate::writer::Writer;
use mo_num::Memory;
use mo_syntax::{
    AssignmentOperator, BinaryOperator, Declaration, Expression, ExpressionField, Items, Kinds,
    Mark, Name, Node, Text, TokenKind, TypeExpression, Word,
};
use std::alloc::Global;

// `actor "id"`
fn put_actor_reference(alloc: Global, text: &Text, out: &mut Kinds) -> Result<(), Memory>
    ensures { OnOk result (out.new ≡ out.old ++ TokenKind.Reserved Word.Actor ∷ TokenKind.Text text.now ∷ []) }
{
    put_word(out, Word::Actor)?;
    put_text(alloc, out, text)
}

// `actor ("id")`
fn put_actor_in_parens(alloc: Global, text: &Text, out: &mut Kinds) -> Result<(), Memory>
    ensures { OnOk result (out.new ≡ out.old ++ TokenKind.Reserved Word.Actor ∷ parens (TokenKind.Text text.now ∷ [])) }
{
    put_word(out, Word::Actor)?;
    put_mark(out, Mark::ParenOpen)?;
    put_text(alloc, out, text)?;
    put_mark(out, Mark::ParenClose)
}

impl<F: Fn(Global, usize, Part<'_>, &mut Kinds) -> Result<(), Memory>> Writer<F> {
    #[tactic(auto, unfolding(mo_syntax::specs::ExpressionGrammar::declaration_tokens, mo_syntax::specs::ExpressionGrammar::expression_tokens, mo_syntax::specs::ExpressionGrammar::declaration_field_tokens, mo_syntax::specs::ExpressionGrammar::case_tokens, mo_syntax::specs::ExpressionGrammar::expression_field_tokens))]
    pub(crate) fn put_expression(&self, a: &Expression, out: &mut Kinds) -> Result<(), Memory>
        requires { Writes self.now.depth (F.pre self.now.parts) (F.post self.now.parts) }
        ensures { OnOk result (out.new ≡ out.old ++ expression_tokens a.now) }
    {
        match a {
            Expression::Assign(operator, a, b) => self.put_assign(*operator, a, b, out),
            Expression::Annotated(a, kind) => self.put_annotated(a, kind, out),
            Expression::Binary(operator, a, b) => self.put_binary(*operator, a, b, out),
            Expression::If(condition, a, otherwise) => self.put_if(condition, a, otherwise, out),
            Expression::Switch(a, cases, last) => self.put_switch(a, cases, *last, out),
            Expression::While(condition, a) => self.put_while(condition, a, out),
            Expression::Loop(a, condition) => self.put_loop(a, condition, out),
            Expression::For(p, a, b) => self.put_for(p, a, b, out),
            Expression::Label(name, kind, a) => self.put_label(name, kind, a, out),
            Expression::Break(name, a) => self.put_break(name, a, out),
            Expression::Continue(name) => self.put_word_name(Word::Continue, name, out),
            Expression::Return(a) => self.put_return(a, out),
            Expression::Do(a) => self.put_word_and(Word::Do, a, out),
            Expression::DoOptional(a) => self.put_do_optional(a, out),
            Expression::Await(a) => self.put_word_and(Word::Await, a, out),
            Expression::Throw(a) => self.put_word_and(Word::Throw, a, out),
            Expression::Try(a, p, b) => self.put_try(a, p, b, out),
            Expression::Assert(a) => self.put_word_and(Word::Assert, a, out),
            Expression::Ignore(a) => self.put_word_and(Word::Ignore, a, out),
            Expression::Debug(a) => self.put_word_and(Word::Debug, a, out),
            Expression::Function(parameters, annotation, equal_sign, body) => self.put_function(
                parameters,
                annotation,
                *equal_sign,
                body,
                out,
            ),
            Expression::ObjectBlock(fields, last) => self.put_object_block(fields, *last, out),
            Expression::Optional(a) => self.put_mark_and(Mark::Question, a, out),
            Expression::Negative(a) => self.put_mark_and(Mark::Minus, a, out),
            Expression::Not(a) => self.put_word_and(Word::Not, a, out),
            Expression::Tagged(name, payload) => self.put_tagged(name, payload, out),
            Expression::Member(a, name) => self.put_member(a, name, out),
            Expression::Projection(a, n) => self.put_projection(a, *n, out),
            Expression::Index(a, b) => self.put_index(a, b, out),
            Expression::Call(a, types, arguments) => self.put_call(a, types, arguments, out),
            Expression::Bang(a) => self.put_bang(a, out),
            Expression::Constant(literal) => put_literal(self.alloc, literal, out),
            Expression::Variable(name) => put_name(self.alloc, out, name),
            Expression::Parenthesized(items) => self.put_arguments(items, out),
            Expression::Array(mutable, items) => self.put_array(*mutable, items, out),
            Expression::Object(fields, last) => self.put_object(fields, *last, out),
            Expression::ActorReference(false, text) => put_actor_reference(self.alloc, text, out),
            Expression::ActorReference(true, text) => put_actor_in_parens(self.alloc, text, out),
            Expression::Block(declarations, last) => self.put_block(declarations, *last, out),
        }
    }

    pub(crate) fn put_mark_and(
        &self,
        mark: Mark,
        a: &Node<Expression>,
        out: &mut Kinds,
    ) -> Result<(), Memory>
        requires { Writes self.now.depth (F.pre self.now.parts) (F.post self.now.parts) }
        ensures { OnOk result (out.new ≡ out.old ++ TokenKind.Mark mark ∷ expression_tokens a.now) }
    {
        put_mark(out, mark)?;
        self.put(a, out)
    }

    fn put_assign(
        &self,
        operator: AssignmentOperator,
        a: &Node<Expression>,
        b: &Node<Expression>,
        out: &mut Kinds,
    ) -> Result<(), Memory>
        requires { Writes self.now.depth (F.pre self.now.parts) (F.post self.now.parts) }
        ensures { OnOk result (out.new ≡ out.old ++ (expression_tokens a.now ++ assignment_token operator ∷ expression_tokens b.now)) }
    {
        self.put(a, out)?;
        put_assignment(operator, out)?;
        self.put(b, out)
    }

    fn put_annotated(
        &self,
        a: &Node<Expression>,
        kind: &Node<TypeExpression>,
        out: &mut Kinds,
    ) -> Result<(), Memory>
        requires { Writes self.now.depth (F.pre self.now.parts) (F.post self.now.parts) }
        ensures { OnOk result (out.new ≡ out.old ++ (expression_tokens a.now ++ TokenKind.Mark Mark.Colon ∷ type_tokens kind.now)) }
    {
        self.put(a, out)?;
        put_mark(out, Mark::Colon)?;
        put_type(self.alloc, kind.get(), out)
    }

    fn put_binary(
        &self,
        operator: BinaryOperator,
        a: &Node<Expression>,
        b: &Node<Expression>,
        out: &mut Kinds,
    ) -> Result<(), Memory>
        requires { Writes self.now.depth (F.pre self.now.parts) (F.post self.now.parts) }
        ensures { OnOk result (out.new ≡ out.old ++ (expression_tokens a.now ++ operator_token operator ∷ expression_tokens b.now)) }
    {
        self.put(a, out)?;
        put_operator(operator, out)?;
        self.put(b, out)
    }

    fn put_tagged(
        &self,
        name: &Name,
        payload: &Option<Node<Expression>>,
        out: &mut Kinds,
    ) -> Result<(), Memory>
        requires { Writes self.now.depth (F.pre self.now.parts) (F.post self.now.parts) }
        ensures { OnOk result (out.new ≡ out.old ++ (tag name.now ++ optional (option_map expression_tokens payload.now))) }
    {
        put_tag(self.alloc, name, out)?;
        self.put_optional(payload, out)
    }

    fn put_member(&self, a: &Node<Expression>, name: &Name, out: &mut Kinds) -> Result<(), Memory>
        requires { Writes self.now.depth (F.pre self.now.parts) (F.post self.now.parts) }
        ensures { OnOk result (out.new ≡ out.old ++ (expression_tokens a.now ++ TokenKind.Mark Mark.Dot ∷ TokenKind.Identifier name.now ∷ [])) }
    {
        self.put(a, out)?;
        put_mark(out, Mark::Dot)?;
        put_name(self.alloc, out, name)
    }

    fn put_projection(&self, a: &Node<Expression>, n: u64, out: &mut Kinds) -> Result<(), Memory>
        requires { Writes self.now.depth (F.pre self.now.parts) (F.post self.now.parts) }
        ensures { OnOk result (out.new ≡ out.old ++ (expression_tokens a.now ++ TokenKind.Mark Mark.Dot ∷ TokenKind.Number n ∷ [])) }
    {
        self.put(a, out)?;
        put_mark(out, Mark::Dot)?;
        out.push(TokenKind::Number(n))
    }

    fn put_index(
        &self,
        a: &Node<Expression>,
        b: &Node<Expression>,
        out: &mut Kinds,
    ) -> Result<(), Memory>
        requires { Writes self.now.depth (F.pre self.now.parts) (F.post self.now.parts) }
        ensures { OnOk result (out.new ≡ out.old ++ (expression_tokens a.now ++ brackets (expression_tokens b.now))) }
    {
        self.put(a, out)?;
        self.put_mark_and(Mark::BracketOpen, b, out)?;
        put_mark(out, Mark::BracketClose)
    }

    fn put_call(
        &self,
        a: &Node<Expression>,
        types: &Option<Items<Node<TypeExpression>>>,
        arguments: &Items<Node<Expression>>,
        out: &mut Kinds,
    ) -> Result<(), Memory>
        requires { Writes self.now.depth (F.pre self.now.parts) (F.post self.now.parts) }
        ensures { OnOk result (out.new ≡ out.old ++ (expression_tokens a.now ++ (angles (option_map (map type_tokens) types.now) ++ parens (commas (map expression_tokens arguments.now))))) }
    {
        self.put(a, out)?;
        put_type_arguments(self.alloc, types, out)?;
        self.put_arguments(arguments, out)
    }

    fn put_bang(&self, a: &Node<Expression>, out: &mut Kinds) -> Result<(), Memory>
        requires { Writes self.now.depth (F.pre self.now.parts) (F.post self.now.parts) }
        ensures { OnOk result (out.new ≡ out.old ++ (expression_tokens a.now ++ TokenKind.Mark Mark.Bang ∷ [])) }
    {
        self.put(a, out)?;
        put_mark(out, Mark::Bang)
    }

    // Expressions in parentheses.
    fn put_arguments(&self, items: &Items<Node<Expression>>, out: &mut Kinds) -> Result<(), Memory>
        requires { Writes self.now.depth (F.pre self.now.parts) (F.post self.now.parts) }
        ensures { OnOk result (out.new ≡ out.old ++ parens (commas (map expression_tokens items.now))) }
    {
        put_mark(out, Mark::ParenOpen)?;
        self.put_expressions(items.as_slice(), out)?;
        put_mark(out, Mark::ParenClose)
    }

    fn put_array(
        &self,
        mutable: bool,
        items: &Items<Node<Expression>>,
        out: &mut Kinds,
    ) -> Result<(), Memory>
        requires { Writes self.now.depth (F.pre self.now.parts) (F.post self.now.parts) }
        ensures { OnOk result (out.new ≡ out.old ++ (brackets (marked mutable (TokenKind.Reserved Word.Var) ++ commas (map expression_tokens items.now)))) }
    {
        put_mark(out, Mark::BracketOpen)?;
        put_word_if(out, mutable, Word::Var)?;
        self.put_expressions(items.as_slice(), out)?;
        put_mark(out, Mark::BracketClose)
    }

    fn put_object(
        &self,
        fields: &Items<Node<ExpressionField>>,
        last: bool,
        out: &mut Kinds,
    ) -> Result<(), Memory>
        requires { Writes self.now.depth (F.pre self.now.parts) (F.post self.now.parts) }
        ensures { OnOk result (out.new ≡ out.old ++ braces (semicolons (map expression_field_tokens fields.now) last)) }
    {
        put_mark(out, Mark::BraceOpen)?;
        self.put_expression_fields(fields.as_slice(), out)?;
        put_end(last, out)
    }

    fn put_block(
        &self,
        declarations: &Items<Node<Declaration>>,
        last: bool,
        out: &mut Kinds,
    ) -> Result<(), Memory>
        requires { Writes self.now.depth (F.pre self.now.parts) (F.post self.now.parts) }
        ensures { OnOk result (out.new ≡ out.old ++ braces (semicolons (map declaration_tokens declarations.now) last)) }
    {
        put_mark(out, Mark::BraceOpen)?;
        self.put_declarations(declarations.as_slice(), out)?;
        put_end(last, out)
    }
}
