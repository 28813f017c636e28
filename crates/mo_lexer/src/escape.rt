//! Escapes.
ghost use Rattle.std.specs.Prelude.{◌≡◌, ◌+◌, ◌<◌, ◌^◌, true, length};
ghost use Rattle.mo_syntax.specs.Characters as bytes;
ghost use Rattle.mo_lexer.specs.Reading as spec;
ghost use Rattle.mo_syntax.specs.Lexed as lexed;
ghost use Rattle.mo_lexer.specs.Escapes.{EscapeFound};

use crate::class::{Class, digit_value, is_digit};
use crate::number::numeral_value;

/// What stands behind a `\`, with the number of its bytes.
#[derive(Clone, Copy, Debug, PartialEq, Eq)]
pub enum Escape {
    /// A Unicode scalar value.
    Scalar(char, usize),
    /// One byte, in a text.
    Byte(u8, usize),
    /// No escape, whatever follows.
    Bad,
    /// The begin of an escape, and the text's end.
    Ends,
}

/// The escape at the front of a text, behind its `\`. One byte by two digits is an escape in texts alone.
pub fn escape_at(in_text: bool, text: &[u8]) -> Escape
    requires { length text.now < 2 ^ 62 }
    ensures value { result ≡ spec.escape_at in_text text.now }
    ensures found { EscapeFound in_text text.now result }
{
    match text {
        [] => Escape::Ends,
        [letter, rest @ ..] => match letter_escape(*letter) {
            Some(byte) => Escape::Scalar(byte as char, 1),
            None => {
                if *letter == b'u' {
                    unicode_at(rest)
                } else if in_text && is_digit(16, *letter) {
                    byte_at(*letter, rest)
                } else {
                    Escape::Bad
                }
            }
        },
    }
}

fn letter_escape(letter: u8) -> Option<u8>
    ensures { result ≡ lexed.letter_escape letter }
{
    match letter {
        b'n' => Some(b'\n'),
        b'r' => Some(b'\r'),
        b't' => Some(b'\t'),
        b'\\' | b'"' | b'\'' => Some(letter),
        _ => None,
    }
}

fn byte_at(high: u8, text: &[u8]) -> Escape
    requires { bytes.is_digit 16 high ≡ true }
    ensures { result ≡ spec.byte_at high text.now }
{
    match text {
        [] => Escape::Ends,
        [low, ..] => {
            if is_digit(16, *low) {
                Escape::Byte(digit_value(high) * 16 + digit_value(*low), 2)
            } else {
                Escape::Bad
            }
        }
    }
}

fn unicode_at(text: &[u8]) -> Escape
    requires { length text.now < 2 ^ 62 }
    ensures { result ≡ spec.unicode_at text.now }
{
    match text {
        [] => Escape::Ends,
        [brace, digits @ ..] => {
            if *brace == b'{' {
                braced_at(digits)
            } else {
                Escape::Bad
            }
        }
    }
}

fn braced_at(text: &[u8]) -> Escape
    requires { length text.now < 2 ^ 62 }
    ensures { result ≡ spec.braced_at text.now }
{
    let len = Class::Hexadecimal.run_len(text);
    match numeral_value(16, &text[..len]) {
        Some(value) if value <= 0x10_FFFF => closed_at(value as u32, len, &text[len..]),
        _ => Escape::Bad,
    }
}

fn closed_at(value: u32, len: usize, text: &[u8]) -> Escape
    requires { len < 2 ^ 62 }
    ensures { result ≡ spec.closed_at value len text.now }
{
    match text {
        [] => Escape::Ends,
        [brace, ..] => match char::from_u32(value) {
            Some(scalar) if *brace == b'}' && len > 0 => Escape::Scalar(scalar, len + 3),
            _ => Escape::Bad,
        },
    }
}
