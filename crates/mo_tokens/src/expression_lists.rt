//! The lists in expressions and declarations.
ghost use Rattle.std.specs.Prelude.{◌≡◌, ◌++◌, OnOk, map};
ghost use Rattle.mo_syntax.specs.Writing.{commas, separated};
ghost use Rattle.mo_syntax.specs.ExpressionGrammar.{declaration_tokens, expression_tokens, declaration_field_tokens, case_tokens, expression_field_tokens};
ghost use Rattle.mo_syntax.specs.declared.mark.Mark.{Mark};
ghost use Rattle.mo_syntax.specs.declared.token.TokenKind.{TokenKind};
ghost use Rattle.mo_tokens.specs.Writes.{Writes};

use crate::leaves::put_mark;
use crate::part::Part;
use crate::writer::Writer;
use mo_num::Memory;
use mo_syntax::{
    Case, Declaration, DeclarationField, Expression, ExpressionField, Kinds, Mark, Node,
};
use std::alloc::Global;

impl<F: Fn(Global, usize, Part<'_>, &mut Kinds) -> Result<(), Memory>> Writer<F> {
    pub(crate) fn put_expressions(
        &self,
        items: &[Node<Expression>],
        out: &mut Kinds,
    ) -> Result<(), Memory>
        requires { Writes self.now.depth (F.pre self.now.parts) (F.post self.now.parts) }
        ensures { OnOk result (out.new ≡ out.old ++ commas (map expression_tokens items.now)) }
    {
        let [first, others @ ..] = items else {
            return Ok(());
        };
        self.put(first, out)?;
        for one in others {
            put_mark(out, Mark::Comma)?;
            self.put(one, out)?;
        }
        Ok(())
    }

    pub(crate) fn put_cases(&self, items: &[Node<Case>], out: &mut Kinds) -> Result<(), Memory>
        requires { Writes self.now.depth (F.pre self.now.parts) (F.post self.now.parts) }
        ensures { OnOk result (out.new ≡ out.old ++ separated (TokenKind.Mark Mark.Semicolon) (map case_tokens items.now)) }
    {
        let [first, others @ ..] = items else {
            return Ok(());
        };
        self.put_case(first.get(), out)?;
        for one in others {
            put_mark(out, Mark::Semicolon)?;
            self.put_case(one.get(), out)?;
        }
        Ok(())
    }

    pub(crate) fn put_expression_fields(
        &self,
        items: &[Node<ExpressionField>],
        out: &mut Kinds,
    ) -> Result<(), Memory>
        requires { Writes self.now.depth (F.pre self.now.parts) (F.post self.now.parts) }
        ensures { OnOk result (out.new ≡ out.old ++ separated (TokenKind.Mark Mark.Semicolon) (map expression_field_tokens items.now)) }
    {
        let [first, others @ ..] = items else {
            return Ok(());
        };
        self.put_expression_field(first.get(), out)?;
        for one in others {
            put_mark(out, Mark::Semicolon)?;
            self.put_expression_field(one.get(), out)?;
        }
        Ok(())
    }

    pub(crate) fn put_declarations(
        &self,
        items: &[Node<Declaration>],
        out: &mut Kinds,
    ) -> Result<(), Memory>
        requires { Writes self.now.depth (F.pre self.now.parts) (F.post self.now.parts) }
        ensures { OnOk result (out.new ≡ out.old ++ separated (TokenKind.Mark Mark.Semicolon) (map declaration_tokens items.now)) }
    {
        let [first, others @ ..] = items else {
            return Ok(());
        };
        self.put_declared(first, out)?;
        for one in others {
            put_mark(out, Mark::Semicolon)?;
            self.put_declared(one, out)?;
        }
        Ok(())
    }

    pub(crate) fn put_declaration_fields(
        &self,
        items: &[Node<DeclarationField>],
        out: &mut Kinds,
    ) -> Result<(), Memory>
        requires { Writes self.now.depth (F.pre self.now.parts) (F.post self.now.parts) }
        ensures { OnOk result (out.new ≡ out.old ++ separated (TokenKind.Mark Mark.Semicolon) (map declaration_field_tokens items.now)) }
    {
        let [first, others @ ..] = items else {
            return Ok(());
        };
        self.put_declaration_field(first.get(), out)?;
        for one in others {
            put_mark(out, Mark::Semicolon)?;
            self.put_declaration_field(one.get(), out)?;
        }
        Ok(())
    }
}
