//! The pieces of a source: blanks, comments and tokens.
ghost use Rattle.std.specs.Prelude.{◌≡◌, ◌<◌, ◌^◌, Some, true, false, length, drop, slice_index, IfOk, IfErr};
ghost use Rattle.mo_syntax.specs.Characters as bytes;
ghost use Rattle.mo_syntax.specs.Lexed as lexed;
ghost use Rattle.mo_syntax.specs.Tokens.{before_of};
ghost use Rattle.mo_lexer.specs.Faults.{BeginsNoOther};
ghost use Rattle.mo_lexer.specs.Found.{PieceIs, StopsAt};

use crate::class::{Class, is_blank, is_digit, is_name_start};
use crate::comment::block_len;
use crate::fault::LexFault;
use crate::literal::{character_at, text_at};
use crate::name::reserved_word;
use crate::number::number_at;
use crate::sign::{in_context, mark_at};
use crate::stop::Stop;
use mo_syntax::{Before, Mark, Name, Place, Text, TokenKind};
use std::alloc::Global;

// A name or text gets its place with its token.
const NOWHERE: Place = Place { start: 0, end: 0 };

/// A piece: its kind where it is a token, what it leaves directly before the next one, and how many bytes it has.
#[derive(Drop)]
pub struct Found {
    pub kind: Option<TokenKind>,
    pub before: Before,
    pub len: usize,
}

fn token(kind: TokenKind, len: usize) -> Found
    ensures { result ≡ record { kind = Some kind; before = before_of kind; len = len } }
{
    Found {
        before: kind.before(),
        kind: Some(kind),
        len,
    }
}

/// The piece that stands at the place.
pub fn piece_at(alloc: Global, source: &str, place: usize, before: Before) -> Result<Found, Stop>
    requires within { place < length source.now }
    requires fits { length source.now < 2 ^ 31 }
    ensures ok { IfOk result (PieceIs before (drop place source.now)) }
    ensures err { IfErr result (StopsAt place (drop place source.now)) }
{
    let text = &source.as_bytes()[place..];
    let byte = text[0];
    if is_blank(byte) {
        return Ok(Found {
            kind: None,
            before: Before::Blank,
            len: 1,
        });
    }
    if begins_comment(text) {
        return comment_at(text, place as u32);
    }
    if is_name_start(byte) {
        return name_at(alloc, text);
    }
    if is_digit(10, byte) {
        return numeral_at(text, place as u32);
    }
    match byte {
        b'\'' => {
            let found = character_at(source, place)?;
            Ok(token(TokenKind::Character(found.value as u32), found.len))
        }
        b'"' => {
            let found = text_at(alloc, text, place as u32)?;
            let value = Text {
                bytes: found.bytes,
                place: NOWHERE,
            };
            Ok(token(TokenKind::Text(value), found.len))
        }
        _ => sign_at(text, place as u32, before),
    }
}

fn begins_comment(text: &[u8]) -> bool
    ensures { result ≡ lexed.begins_comment text.now }
{
    match text {
        [byte, next, ..] => *byte == b'/' && (*next == b'/' || *next == b'*'),
        _ => false,
    }
}

fn comment_at(text: &[u8], place: u32) -> Result<Found, Stop>
    requires { lexed.begins_comment text.now ≡ true }
    ensures ok { (before : Before) → IfOk result (PieceIs before text.now) }
    ensures err { IfErr result (StopsAt place text.now) }
{
    let body = &text[2..];
    let len = if text[1] == b'/' {
        Class::Line.run_len(body)
    } else {
        match block_len(body) {
            Some(len) => len,
            None => return Err(Stop::AtEnd(LexFault::OpenComment(place))),
        }
    };
    Ok(Found {
        kind: None,
        before: Before::Other,
        len: 2 + len,
    })
}

fn name_at(alloc: Global, text: &[u8]) -> Result<Found, Stop>
    requires { bytes.begins bytes.is_name_start text.now ≡ true }
    ensures ok { (before : Before) → IfOk result (PieceIs before text.now) }
    ensures err { IfErr result (λ stop. stop ≡ Stop.Memory) }
{
    let len = Class::Name.run_len(text);
    let name = &text[..len];
    let kind = match reserved_word(name) {
        Some(word) => TokenKind::Reserved(word),
        None if name == b"_".as_slice() => TokenKind::Mark(Mark::Underscore),
        None => TokenKind::Identifier(Name::new(alloc, NOWHERE, name)?),
    };
    Ok(token(kind, len))
}

fn numeral_at(text: &[u8], place: u32) -> Result<Found, Stop>
    requires { bytes.begins (bytes.is_digit 10) text.now ≡ true }
    ensures ok { (before : Before) → IfOk result (PieceIs before text.now) }
    ensures err { IfErr result (StopsAt place text.now) }
{
    let number = number_at(text);
    match number.value {
        Some(value) => Ok(token(TokenKind::Number(value), number.len)),
        None => Err(Stop::Met(LexFault::WideNumber(place))),
    }
}

fn sign_at(text: &[u8], place: u32, before: Before) -> Result<Found, Stop>
    requires plain { lexed.begins_comment text.now ≡ false }
    requires some { 0 < length text.now }
    requires nothing { BeginsNoOther (slice_index text.now 0) }
    ensures ok { IfOk result (PieceIs before text.now) }
    ensures err { IfErr result (StopsAt place text.now) }
{
    let Some(plain) = mark_at(text) else {
        return Err(Stop::Met(LexFault::BadByte(place)));
    };
    let len = plain.text().len();
    let mark = in_context(before, plain, &text[len..]);
    Ok(token(TokenKind::Mark(mark), len))
}
