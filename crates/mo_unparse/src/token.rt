//! Tokens.
ghost use Rattle.std.specs.Prelude.{◌≡◌, OnOk};
ghost use Rattle.mo_unparse.specs.Spelling.{Adds, AddsNext, AddsCharacter, AddsNumber};

use crate::last::{Last, gap};
use crate::numeral::put_numeral;
use crate::text::put_text;
use mo_num::{Bytes, Memory};
use mo_syntax::TokenKind;

/// Adds the token, and in front of it what has to stand between it and the last one.
pub fn put_next(out: &mut Bytes, last: Last, kind: &TokenKind) -> Result<(), Memory>
    ensures { OnOk result (AddsNext last kind.now out.old out.new) }
{
    out.extend(gap(last, kind))?;
    put_token(out, kind)
}

fn put_token(out: &mut Bytes, kind: &TokenKind) -> Result<(), Memory>
    ensures { OnOk result (Adds kind.now out.old out.new) }
{
    match kind {
        TokenKind::Identifier(name) => out.extend(name.as_slice()),
        TokenKind::Reserved(word) => out.extend(word.text()),
        TokenKind::Number(value) => put_number(out, *value),
        TokenKind::Character(value) => put_character(out, *value),
        TokenKind::Text(text) => put_text(out, text.as_slice()),
        TokenKind::Mark(mark) => out.extend(mark.text()),
    }
}

// A number in decimal.
fn put_number(out: &mut Bytes, value: u64) -> Result<(), Memory>
    ensures { OnOk result (AddsNumber value out.old out.new) }
{
    put_numeral(out, 10, value)
}

// A character as an escape of its scalar value.
fn put_character(out: &mut Bytes, value: u32) -> Result<(), Memory>
    ensures { OnOk result (AddsCharacter value out.old out.new) }
{
    out.extend(b"'\\u{")?;
    put_numeral(out, 16, u64::from(value))?;
    out.extend(b"}'")
}
