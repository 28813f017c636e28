//! What a word says: a number or bytes.
ghost use Rattle.std.specs.Prelude.{◌≡◌, ◌↔◌, ◌+◌, ◌-◌, ◌*◌, ◌<◌, ◌≤◌, ◌^◌, ℕ, IsTrue, IfSome, IfNone, IfOk, Some, None, ◌∷◌, []};
ghost use Rattle.std.specs.Char.{IsAsciiDigit};
ghost use Rattle.play_script.specs.Numbers.{IsDecimal, HasNoLeadingZero};
ghost use Rattle.play_script.specs.Words.{IsNumber, hex_bytes, bytes_of};

use hex::FromHexError;
use mo_num::{Bytes, Memory};
use std::alloc::Global;

/// The number that the word is.
pub fn read_number(word: &[u8]) -> Option<u64>
    ensures found { IfSome result (IsNumber word.now) }
    ensures none { IfNone result ((n : ℕ) → IsNumber word.now n → ⊥) }
{
    if !is_plain(word) {
        return None;
    }
    let mut value = 0;
    for byte in word {
        match with_digit(value, *byte) {
            Some(more) => value = more,
            None => return None,
        }
    }
    Some(value)
}

// Whether there is a digit, and no zero before others.
fn is_plain(word: &[u8]) -> bool
    ensures { IsTrue result ↔ HasNoLeadingZero word.now }
{
    match word {
        [] => false,
        [_] => true,
        [first, ..] => *first != b'0',
    }
}

// The number with this digit behind its own.
fn with_digit(value: u64, digit: u8) -> Option<u64>
    ensures digit { IfSome result (λ _. IsAsciiDigit digit) }
    ensures found { IfSome result (λ n. n ≡ 10 * value + (digit - 48)) }
    ensures small { IfSome result (λ n. n < 2 ^ 64) }
    ensures none { IfNone result (IsAsciiDigit digit → 2 ^ 64 ≤ 10 * value + (digit - 48)) }
{
    if !digit.is_ascii_digit() {
        return None;
    }
    let more = u64::from(digit - b'0');
    if value > (u64::MAX - more) / 10 {
        return None;
    }
    Some(10 * value + more)
}

/// The bytes that the word says.
pub(crate) fn read_bytes(alloc: Global, word: &[u8]) -> Result<Option<Bytes>, Memory>
    ensures { IfOk result (λ found. found ≡ bytes_of word.now) }
{
    match word {
        [] => Ok(None),
        [byte] => Ok(dash(alloc, *byte)),
        _ => read_hex(alloc, word),
    }
}

// No bytes, where the byte is a dash.
fn dash(alloc: Global, byte: u8) -> Option<Bytes>
    ensures { result ≡ bytes_of (byte ∷ []) }
{
    if byte == b'-' {
        Some(Bytes::new(alloc))
    } else {
        None
    }
}

fn read_hex(alloc: Global, word: &[u8]) -> Result<Option<Bytes>, Memory>
    ensures { IfOk result (λ found. found ≡ hex_bytes word.now) }
{
    match hex::decode(alloc, word) {
        Ok(bytes) => Ok(Some(Bytes::from_vec(bytes))),
        Err(error) => match error {
            FromHexError::OutOfMemory => Err(Memory),
            _ => Ok(None),
        },
    }
}
