//! Single tokens.
ghost use Rattle.std.specs.Prelude.{◌≡◌, ◌++◌, ◌∷◌, [], OnOk};
ghost use Rattle.mo_syntax.specs.Writing.{literal_token, marked, tag};
ghost use Rattle.mo_syntax.specs.declared.token.TokenKind.{TokenKind};
ghost use Rattle.mo_syntax.specs.declared.mark.Mark.{Mark};

use mo_num::Memory;
use mo_syntax::{Kinds, Literal, Mark, Name, Text, TokenKind, Word};
use std::alloc::Global;

pub(crate) fn put_mark(out: &mut Kinds, mark: Mark) -> Result<(), Memory>
    ensures { OnOk result (out.new ≡ out.old ++ TokenKind.Mark mark ∷ []) }
{
    out.push(TokenKind::Mark(mark))
}

pub(crate) fn put_word(out: &mut Kinds, word: Word) -> Result<(), Memory>
    ensures { OnOk result (out.new ≡ out.old ++ TokenKind.Reserved word ∷ []) }
{
    out.push(TokenKind::Reserved(word))
}

pub(crate) fn put_name(alloc: Global, out: &mut Kinds, name: &Name) -> Result<(), Memory>
    ensures { OnOk result (out.new ≡ out.old ++ TokenKind.Identifier name.now ∷ []) }
{
    out.push(TokenKind::Identifier(name.copy(alloc)?))
}

pub(crate) fn put_text(alloc: Global, out: &mut Kinds, text: &Text) -> Result<(), Memory>
    ensures { OnOk result (out.new ≡ out.old ++ TokenKind.Text text.now ∷ []) }
{
    out.push(TokenKind::Text(text.copy(alloc)?))
}

/// The mark, where it stands.
pub(crate) fn put_mark_if(out: &mut Kinds, stands: bool, mark: Mark) -> Result<(), Memory>
    ensures { OnOk result (out.new ≡ out.old ++ marked stands (TokenKind.Mark mark)) }
{
    if stands { put_mark(out, mark) } else { Ok(()) }
}

/// The word, where it stands.
pub(crate) fn put_word_if(out: &mut Kinds, stands: bool, word: Word) -> Result<(), Memory>
    ensures { OnOk result (out.new ≡ out.old ++ marked stands (TokenKind.Reserved word)) }
{
    if stands { put_word(out, word) } else { Ok(()) }
}

pub(crate) fn put_literal(alloc: Global, literal: &Literal, out: &mut Kinds) -> Result<(), Memory>
    ensures { OnOk result (out.new ≡ out.old ++ literal_token literal.now ∷ []) }
{
    match literal {
        Literal::Number(n) => out.push(TokenKind::Number(*n)),
        Literal::Character(c) => out.push(TokenKind::Character(*c)),
        Literal::Text(text) => put_text(alloc, out, text),
        Literal::True => put_word(out, Word::True),
        Literal::False => put_word(out, Word::False),
        Literal::Null => put_word(out, Word::Null),
    }
}

pub(crate) fn put_tag(alloc: Global, name: &Name, out: &mut Kinds) -> Result<(), Memory>
    ensures { OnOk result (out.new ≡ out.old ++ tag name.now) }
{
    put_mark(out, Mark::Tag)?;
    put_name(alloc, out, name)
}

/// A last `;` or none, and `}`.
pub(crate) fn put_end(last: bool, out: &mut Kinds) -> Result<(), Memory>
    ensures { OnOk result (out.new ≡ out.old ++ marked last (TokenKind.Mark Mark.Semicolon) ++ TokenKind.Mark Mark.BraceClose ∷ []) }
{
    put_mark_if(out, last, Mark::Semicolon)?;
    put_mark(out, Mark::BraceClose)
}
