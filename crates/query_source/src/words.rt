//! Names and numbers. Motoko language manual, sections Keywords, Identifiers and Integers.
ghost use Rattle.std.specs.Prelude.{◌≡◌, ℕ, ◌<◌, ◌↔◌, IsTrue, IfSome, IfNone};
ghost use Rattle.std.specs.List.{Contains};
ghost use Rattle.query_source.specs.Tokens.{AreAll, is_letter};
ghost use Rattle.query_source.specs.Words.{IsName, IsNumeral, reserved};

use crate::token::{is_digit, is_letter};

/// The largest number that a method answers.
pub const LARGEST_NUMBER: u64 = 0x7fff_ffff_ffff_ffff;

/// How many bytes a name has at most.
pub const LONGEST_NAME: usize = 32;

// The keywords of the language, and behind them those that stand in no rule of the language compiled here.
const RESERVED: [&[u8]; 51] = [
    b"actor",
    b"and",
    b"assert",
    b"async",
    b"await",
    b"break",
    b"case",
    b"catch",
    b"class",
    b"continue",
    b"debug",
    b"do",
    b"else",
    b"false",
    b"for",
    b"func",
    b"if",
    b"ignore",
    b"import",
    b"in",
    b"label",
    b"let",
    b"loop",
    b"module",
    b"not",
    b"null",
    b"object",
    b"or",
    b"private",
    b"public",
    b"query",
    b"return",
    b"shared",
    b"stable",
    b"switch",
    b"system",
    b"throw",
    b"true",
    b"try",
    b"type",
    b"var",
    b"while",
    b"composite",
    b"debug_show",
    b"finally",
    b"flexible",
    b"from_candid",
    b"persistent",
    b"to_candid",
    b"transient",
    b"with",
];

fn are_letters(name: &[u8]) -> bool
    ensures { IsTrue result ↔ AreAll is_letter name.now }
{
    for byte in name {
        if !is_letter(*byte) {
            return false;
        }
    }
    true
}

fn is_reserved(word: &[u8]) -> bool
    ensures { IsTrue result ↔ Contains reserved word.now }
{
    RESERVED.contains(&word)
}

/// One to [`LONGEST_NAME`] letters that are no reserved word.
pub fn is_name(name: &[u8]) -> bool
    ensures { IsTrue result ↔ IsName name.now }
{
    !name.is_empty() && name.len() <= LONGEST_NAME && are_letters(name) && !is_reserved(name)
}

/// The number that the digits stand for, if they are digits and it is at most [`LARGEST_NUMBER`].
pub fn numeral(digits: &[u8]) -> Option<u64>
    ensures some { IfSome result (λ number. IsNumeral digits.now number) }
    ensures none { IfNone result ((number : ℕ) → IsNumeral digits.now number → ⊥) }
{
    if digits.is_empty() {
        return None;
    }
    let mut number = 0;
    for digit in digits {
        if !is_digit(*digit) {
            return None;
        }
        let next = 10 * number as u128 + (*digit - b'0') as u128;
        if next > LARGEST_NUMBER as u128 {
            return None;
        }
        number = next as u64;
    }
    Some(number)
}
