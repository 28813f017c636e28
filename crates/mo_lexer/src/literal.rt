//! Characters and texts.
ghost use Rattle.std.specs.Prelude.{◌≡◌, ◌+◌, ◌<◌, ◌^◌, ◌∷◌, length, drop, slice_index, IfOk, IfErr};
ghost use Rattle.mo_lexer.specs.Found.{AppendsEscape, EscapeStops, TextIs, CharacterIs, IsClosed, ClosedStops, StopsAt};

use crate::escape::{Escape, escape_at};
use crate::fault::LexFault;
use crate::stop::Stop;
use mo_num::Bytes;
use std::alloc::Global;

/// A text: the bytes that it stands for, and how many bytes of the source it has.
#[derive(Drop)]
pub struct TextFound {
    pub bytes: Bytes,
    pub len: usize,
}

/// A character: its scalar value, and how many bytes of the source it has.
#[derive(Clone, Copy)]
pub struct CharacterFound {
    pub value: char,
    pub len: usize,
}

/// The text at the front of a source that begins with `"` and stands at the place.
pub fn text_at(alloc: Global, source: &[u8], place: u32) -> Result<TextFound, Stop>
    requires opened { slice_index source.now 0 ≡ 34 }
    requires some { 0 < length source.now }
    requires fits { place + length source.now < 2 ^ 32 }
    ensures ok { IfOk result (TextIs source.now) }
    ensures err { IfErr result (StopsAt place source.now) }
{
    let mut bytes = Bytes::new(alloc);
    let mut at = 1;
    while at < source.len() {
        let byte = source[at];
        if byte == b'"' {
            return Ok(TextFound { bytes, len: at + 1 });
        }
        if byte == b'\n' {
            return Err(Stop::Met(LexFault::OpenText(place)));
        }
        if byte == b'\\' {
            let len = push_escape(&mut bytes, &source[at + 1..], place + at as u32)?;
            at += 1 + len;
        } else {
            bytes.push(byte)?;
            at += 1;
        }
    }
    Err(Stop::AtEnd(LexFault::OpenText(place)))
}

// Adds what an escape stands for, and gives how many bytes it has. The `\` before it stands at the place.
fn push_escape(bytes: &mut Bytes, source: &[u8], place: u32) -> Result<usize, Stop>
    requires { length source.now < 2 ^ 32 }
    ensures ok { IfOk result (AppendsEscape source.now bytes.old bytes.new) }
    ensures err { IfErr result (EscapeStops place source.now) }
{
    match escape_at(true, source) {
        Escape::Scalar(scalar, len) => {
            let mut room = [0; 4];
            bytes.extend(scalar.encode_utf8(&mut room).as_bytes())?;
            Ok(len)
        }
        Escape::Byte(byte, len) => {
            bytes.push(byte)?;
            Ok(len)
        }
        Escape::Bad => Err(Stop::Met(LexFault::BadEscape(place))),
        Escape::Ends => Err(Stop::AtEnd(LexFault::BadEscape(place))),
    }
}

/// The character that begins with the `'` at the place.
pub fn character_at(source: &str, place: usize) -> Result<CharacterFound, Stop>
    requires within { place < length source.now }
    requires opened { slice_index source.now place ≡ 39 }
    requires fits { length source.now < 2 ^ 31 }
    ensures ok { IfOk result (CharacterIs (drop place source.now)) }
    ensures err { IfErr result (StopsAt place (drop place source.now)) }
{
    let mut characters = source[place + 1..].chars();
    match characters.next() {
        None => Err(Stop::AtEnd(LexFault::OpenText(place as u32))),
        Some('\'' | '\n') => Err(Stop::Met(LexFault::OpenText(place as u32))),
        Some('\\') => escaped_character_at(characters.as_str().as_bytes(), place as u32),
        Some(value) => {
            closed_at(characters.as_str().as_bytes(), place as u32)?;
            Ok(CharacterFound {
                value,
                len: value.len_utf8() + 2,
            })
        }
    }
}

// The character whose `'` stands at the place, with the `\` behind it, in front of the source.
fn escaped_character_at(source: &[u8], place: u32) -> Result<CharacterFound, Stop>
    requires { place + length source.now + 4 < 2 ^ 32 }
    ensures ok { IfOk result (CharacterIs (39 ∷ 92 ∷ source.now)) }
    ensures err { IfErr result (StopsAt place (39 ∷ 92 ∷ source.now)) }
{
    match escape_at(false, source) {
        Escape::Scalar(value, len) => {
            closed_at(&source[len..], place)?;
            Ok(CharacterFound {
                value,
                len: len + 3,
            })
        }
        Escape::Byte(_, _) | Escape::Bad => Err(Stop::Met(LexFault::BadEscape(place + 1))),
        Escape::Ends => Err(Stop::AtEnd(LexFault::BadEscape(place + 1))),
    }
}

// Whether the source begins with the `'` that closes the character at the place.
fn closed_at(source: &[u8], place: u32) -> Result<(), Stop>
    ensures ok { IfOk result (λ _. IsClosed source.now) }
    ensures err { IfErr result (ClosedStops place source.now) }
{
    match source {
        [] => Err(Stop::AtEnd(LexFault::OpenText(place))),
        [byte, ..] => {
            if *byte == b'\'' {
                Ok(())
            } else {
                Err(Stop::Met(LexFault::OpenText(place)))
            }
        }
    }
}
