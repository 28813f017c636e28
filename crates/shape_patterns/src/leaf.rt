//! Single tokens, and literals.
ghost use Rattle.std.specs.Prelude.{◌≡◌, ◌++◌, ◌∷◌, [], OnOk};
ghost use Rattle.mo_syntax.specs.Tokens.{nowhere};
ghost use Rattle.mo_syntax.specs.Writing.{tag};
ghost use Rattle.mo_syntax.specs.declared.mark.Mark.{Mark};
ghost use Rattle.mo_syntax.specs.declared.token.TokenKind.{TokenKind};
ghost use Rattle.mo_types.specs.declared.datum.Datum.{Datum};
ghost use Rattle.shape_patterns.specs.Writes.{literal_tokens, name_of, number_tokens, wildcard};

use mo_num::{Bytes, Memory};
use mo_syntax::{Kinds, Mark, Name, Place, Text, TokenKind, Word};
use mo_types::Datum;
use std::alloc::Global;

// Of a name or text that stands in no source.
const NOWHERE: Place = Place { start: 0, end: 0 };

pub(crate) fn put_mark(out: &mut Kinds, mark: Mark) -> Result<(), Memory>
    ensures { OnOk result (out.new ≡ out.old ++ TokenKind.Mark mark ∷ []) }
{
    out.push(TokenKind::Mark(mark))
}

pub(crate) fn put_word(out: &mut Kinds, word: Word) -> Result<(), Memory>
    ensures { OnOk result (out.new ≡ out.old ++ TokenKind.Reserved word ∷ []) }
{
    out.push(TokenKind::Reserved(word))
}

pub(crate) fn put_wildcard(out: &mut Kinds) -> Result<(), Memory>
    ensures { OnOk result (out.new ≡ out.old ++ wildcard) }
{
    put_mark(out, Mark::Underscore)
}

pub(crate) fn put_name(alloc: Global, label: &[u8], out: &mut Kinds) -> Result<(), Memory>
    ensures { OnOk result (out.new ≡ out.old ++ TokenKind.Identifier (name_of label.now) ∷ []) }
{
    out.push(TokenKind::Identifier(Name::new(alloc, NOWHERE, label)?))
}

pub(crate) fn put_tag(alloc: Global, label: &[u8], out: &mut Kinds) -> Result<(), Memory>
    ensures { OnOk result (out.new ≡ out.old ++ tag (name_of label.now)) }
{
    put_mark(out, Mark::Tag)?;
    put_name(alloc, label, out)
}

fn put_text(alloc: Global, text: &Bytes, out: &mut Kinds) -> Result<(), Memory>
    ensures { OnOk result (out.new ≡ out.old ++ TokenKind.Text (record { bytes = text.now; place = nowhere }) ∷ []) }
{
    out.push(TokenKind::Text(Text {
        bytes: Bytes::from_slice(alloc, text.as_slice())?,
        place: NOWHERE,
    }))
}

fn put_number(number: i128, out: &mut Kinds) -> Result<(), Memory>
    ensures { OnOk result (out.new ≡ out.old ++ number_tokens number) }
{
    if number >= 0 {
        if number < 0x1_0000_0000_0000_0000 {
            out.push(TokenKind::Number(number as u64))
        } else {
            put_wildcard(out)
        }
    } else if number > -0x1_0000_0000_0000_0000 {
        put_mark(out, Mark::Minus)?;
        out.push(TokenKind::Number((-number) as u64))
    } else {
        put_wildcard(out)
    }
}

fn put_flag(flag: bool, out: &mut Kinds) -> Result<(), Memory>
    ensures { OnOk result (out.new ≡ out.old ++ literal_tokens (Datum.Flag flag)) }
{
    if flag {
        put_word(out, Word::True)
    } else {
        put_word(out, Word::False)
    }
}

/// Adds a literal.
pub(crate) fn put_literal(alloc: Global, part: &Datum, out: &mut Kinds) -> Result<(), Memory>
    ensures { OnOk result (out.new ≡ out.old ++ literal_tokens part.now) }
{
    match part {
        Datum::Null => put_word(out, Word::Null),
        Datum::Flag(flag) => put_flag(*flag, out),
        Datum::Number(number) => put_number(*number, out),
        Datum::Char(code) => out.push(TokenKind::Character(*code)),
        Datum::Text(text) => put_text(alloc, text, out),
        Datum::Blob(bytes) => put_text(alloc, bytes, out),
        _ => put_wildcard(out),
    }
}
