//! Numbers.
ghost use Rattle.std.specs.Prelude.{◌≡◌, ◌<◌, ◌≤◌, ◌^◌, true, length, SomeIff};
ghost use Rattle.mo_syntax.specs.Characters as bytes;
ghost use Rattle.mo_lexer.specs.Reading as spec;
ghost use Rattle.mo_syntax.specs.Lexed as lexed;
ghost use Rattle.mo_lexer.specs.Numbers.{NumberIs};

use crate::class::{digit_value, is_digit};

/// A number at the front of a text: its value, if that is below 2^64, and how many bytes it has.
#[derive(Clone, Copy)]
pub struct Number {
    pub value: Option<u64>,
    pub len: usize,
}

/// The number at the front of a text that begins with a digit.
pub fn number_at(text: &[u8]) -> Number
    requires { bytes.begins (bytes.is_digit 10) text.now ≡ true }
    ensures { NumberIs text.now result }
{
    if begins_hexadecimal(text) {
        let len = digits_len(16, &text[2..]);
        return Number {
            value: numeral_value(16, &text[2..2 + len]),
            len: 2 + len,
        };
    }
    let len = digits_len(10, text);
    Number {
        value: numeral_value(10, &text[..len]),
        len,
    }
}

fn begins_hexadecimal(text: &[u8]) -> bool
    ensures { result ≡ lexed.begins_hexadecimal text.now }
{
    match text {
        [zero, x, digits @ ..] => *zero == b'0' && *x == b'x' && begins_digit(16, digits),
        _ => false,
    }
}

fn begins_digit(base: u8, text: &[u8]) -> bool
    ensures { result ≡ bytes.begins (bytes.is_digit base) text.now }
{
    match text {
        [byte, ..] => is_digit(base, *byte),
        [] => false,
    }
}

fn begins_low_digit(base: u8, text: &[u8]) -> bool
    ensures { result ≡ bytes.begins_low_digit base text.now }
{
    match text {
        [byte, rest @ ..] => *byte == b'_' && begins_digit(base, rest),
        [] => false,
    }
}

fn goes_on(base: u8, text: &[u8]) -> bool
    ensures { result ≡ bytes.goes_on base text.now }
{
    begins_digit(base, text) || begins_low_digit(base, text)
}

// How many bytes at the front are digits, or a `_` with a digit directly after it.
fn digits_len(base: u8, text: &[u8]) -> usize
    ensures value { result ≡ spec.digits_len base text.now }
    ensures within { result ≤ length text.now }
{
    let mut len = 0;
    while len < text.len() && goes_on(base, &text[len..]) {
        len += 1;
    }
    len
}

/// The value of a numeral, if it is below 2^64.
pub fn numeral_value(base: u8, digits: &[u8]) -> Option<u64>
    ensures { SomeIff result (bytes.value_of base digits.now < 2 ^ 64) (bytes.value_of base digits.now) }
{
    let mut value: u64 = 0;
    for byte in digits {
        if *byte != b'_' {
            value = value
                .checked_mul(u64::from(base))?
                .checked_add(u64::from(digit_value(*byte)))?;
        }
    }
    Some(value)
}
