//! The writer of a layer of expressions and declarations.
ghost use Rattle.std.specs.Prelude.{◌≡◌, ◌++◌, OnOk, option_map};
ghost use Rattle.mo_syntax.specs.Writing.{led, optional};
ghost use Rattle.mo_syntax.specs.ExpressionGrammar.{declaration_tokens, expression_tokens};
ghost use Rattle.mo_syntax.specs.declared.mark.Mark.{Mark};
ghost use Rattle.mo_syntax.specs.declared.token.TokenKind.{TokenKind};
ghost use Rattle.mo_tokens.specs.Writes.{Writes};

use crate::leaves::{put_mark, put_word};
use crate::part::Part;
use mo_num::Memory;
use mo_syntax::{Declaration, Expression, Kinds, Mark, Node, Word};
use std::alloc::Global;

/// The writing of one layer. That of the parts in it is a parameter, so that each function is proved by itself.
#[derive(Clone, Copy)]
pub(crate) struct Writer<F> {
    pub alloc: Global,
    pub depth: usize,
    pub parts: F,
}

impl<F: Fn(Global, usize, Part<'_>, &mut Kinds) -> Result<(), Memory>> Writer<F> {
    pub(crate) fn put(&self, a: &Node<Expression>, out: &mut Kinds) -> Result<(), Memory>
        requires { Writes self.now.depth (F.pre self.now.parts) (F.post self.now.parts) }
        ensures { OnOk result (out.new ≡ out.old ++ expression_tokens a.now) }
    {
        (self.parts)(self.alloc, self.depth, Part::Expression(a.get()), out)
    }

    pub(crate) fn put_declared(
        &self,
        declaration: &Node<Declaration>,
        out: &mut Kinds,
    ) -> Result<(), Memory>
        requires { Writes self.now.depth (F.pre self.now.parts) (F.post self.now.parts) }
        ensures { OnOk result (out.new ≡ out.old ++ declaration_tokens declaration.now) }
    {
        (self.parts)(
            self.alloc,
            self.depth,
            Part::Declaration(declaration.get()),
            out,
        )
    }

    pub(crate) fn put_optional(
        &self,
        a: &Option<Node<Expression>>,
        out: &mut Kinds,
    ) -> Result<(), Memory>
        requires { Writes self.now.depth (F.pre self.now.parts) (F.post self.now.parts) }
        ensures { OnOk result (out.new ≡ out.old ++ optional (option_map expression_tokens a.now)) }
    {
        match a {
            None => Ok(()),
            Some(a) => self.put(a, out),
        }
    }

    pub(crate) fn put_led(
        &self,
        word: Word,
        a: &Option<Node<Expression>>,
        out: &mut Kinds,
    ) -> Result<(), Memory>
        requires { Writes self.now.depth (F.pre self.now.parts) (F.post self.now.parts) }
        ensures { OnOk result (out.new ≡ out.old ++ led (TokenKind.Reserved word) (option_map expression_tokens a.now)) }
    {
        match a {
            None => Ok(()),
            Some(a) => {
                put_word(out, word)?;
                self.put(a, out)
            }
        }
    }

    pub(crate) fn put_value(
        &self,
        a: &Option<Node<Expression>>,
        out: &mut Kinds,
    ) -> Result<(), Memory>
        requires { Writes self.now.depth (F.pre self.now.parts) (F.post self.now.parts) }
        ensures { OnOk result (out.new ≡ out.old ++ led (TokenKind.Mark Mark.EqualSign) (option_map expression_tokens a.now)) }
    {
        match a {
            None => Ok(()),
            Some(a) => {
                put_mark(out, Mark::EqualSign)?;
                self.put(a, out)
            }
        }
    }
}
