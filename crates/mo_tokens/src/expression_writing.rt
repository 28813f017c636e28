//! The tokens of an expression or a declaration.
ghost use Rattle.std.specs.Prelude.{◌≡◌, ◌++◌, OnOk};
ghost use Rattle.mo_syntax.specs.ExpressionGrammar.{declaration_tokens, expression_tokens};
ghost use Rattle.mo_tokens.specs.PartWriting.{part_tokens};

use crate::part::Part;
use crate::writer::Writer;
use mo_num::Memory;
use mo_syntax::{Declaration, Expression, Kinds};
use std::alloc::Global;

// A part of at most so many levels. One of more levels than there are addresses is none that memory holds.
fn put_part(alloc: Global, depth: usize, part: Part<'_>, out: &mut Kinds) -> Result<(), Memory>
    ensures { OnOk result (out.new ≡ out.old ++ part_tokens part.entry) }
{
    if depth == 0 {
        return Err(Memory);
    }
    let writer = Writer {
        alloc,
        depth: depth - 1,
        parts: put_part,
    };
    match part {
        Part::Expression(a) => writer.put_expression(a, out),
        Part::Declaration(declaration) => writer.put_declaration(declaration, out),
    }
}

pub(crate) fn put_expression(alloc: Global, a: &Expression, out: &mut Kinds) -> Result<(), Memory>
    ensures { OnOk result (out.new ≡ out.old ++ expression_tokens a.now) }
{
    put_part(alloc, usize::MAX, Part::Expression(a), out)
}

pub(crate) fn put_declaration(
    alloc: Global,
    declaration: &Declaration,
    out: &mut Kinds,
) -> Result<(), Memory>
    ensures { OnOk result (out.new ≡ out.old ++ declaration_tokens declaration.now) }
{
    put_part(alloc, usize::MAX, Part::Declaration(declaration), out)
}
