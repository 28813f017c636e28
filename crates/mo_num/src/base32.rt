//! Base32 in groups of five letters, as the text of a principal has it.
ghost use Rattle.std.specs.Prelude.{◌≡◌, ℕ, ◌+◌, ◌<◌, ◌≤◌, List, [], ◌++◌, length, map, MatchOption};
ghost use Rattle.std.specs.Bool.{MatchBool};
ghost use Rattle.std.specs.List.{AllByRecursion};
ghost use Rattle.smallvec.specs.SmallVec.{small_vec_len};
ghost use Rattle.mo_num.specs.PrincipalText.{letter, shown, IsBase32};

use smallvec::SmallVec;
use std::alloc::Global;

/// The digits that the text shows, after those that stand there already. The digits have room in the value.
pub(crate) fn read_groups(text: &[u8], digits: &mut SmallVec<u8, 64>) -> bool
    requires room { small_vec_len digits.old + length text.now ≤ 64 }
    requires inline { digits.old.capacity ≡ 64 }
    ensures inline { digits.new.capacity ≡ 64 }
    ensures digits { MatchBool result ((more : List ℕ) × (digits.new.items ≡ digits.old.items ++ more) × AllByRecursion (λ d. d < 32) more × (text.now ≡ shown more)) ((more : List ℕ) → AllByRecursion (λ d. d < 32) more → text.now ≡ shown more → ⊥) }
{
    if text.len() <= 5 {
        return read_letters(text, digits);
    }
    if text.len() == 6 || text[5] != b'-' {
        return false;
    }
    if !read_letters(&text[..5], digits) {
        return false;
    }
    read_groups(&text[6..], digits)
}

fn read_letters(text: &[u8], digits: &mut SmallVec<u8, 64>) -> bool
    requires room { small_vec_len digits.old + length text.now ≤ 64 }
    requires inline { digits.old.capacity ≡ 64 }
    ensures inline { digits.new.capacity ≡ 64 }
    ensures digits { MatchBool result ((more : List ℕ) × (digits.new.items ≡ digits.old.items ++ more) × AllByRecursion (λ d. d < 32) more × (text.now ≡ map letter more)) ((more : List ℕ) → AllByRecursion (λ d. d < 32) more → text.now ≡ map letter more → ⊥) }
{
    for byte in text {
        match digit_of(*byte) {
            Some(digit) => digits.push_reserved(digit),
            None => return false,
        }
    }
    true
}

fn digit_of(byte: u8) -> Option<u8>
    ensures { MatchOption result ((d : ℕ) → d < 32 → byte ≡ letter d → ⊥) (λ d. (d < 32) × (byte ≡ letter d)) }
{
    match byte {
        b'a'..=b'z' => Some(byte - b'a'),
        b'2'..=b'7' => Some(byte - b'2' + 26),
        _ => None,
    }
}

/// The bytes whose bits the digits write, or none where the digits end otherwise than in fewer than five bits 0.
pub(crate) fn regrouped(alloc: Global, digits: &[u8]) -> Option<SmallVec<u8, 40>>
    requires few { length digits.now ≤ 64 }
    requires below { AllByRecursion (λ d. d < 32) digits.now }
    ensures { MatchOption result ((bytes : List ℕ) → IsBase32 bytes digits.now → ⊥) (λ bytes. IsBase32 bytes.items digits.now × AllByRecursion (λ b. b < 256) bytes.items) }
{
    let mut bytes: SmallVec<u8, 40> = SmallVec::new(alloc);
    // Bits that fill no byte yet, fewer than eight.
    let mut pending: u32 = 0;
    let mut count: u32 = 0;
    for digit in digits {
        let wide = pending * 32 + *digit as u32;
        if count < 3 {
            count += 5;
            pending = wide;
        } else {
            count -= 3;
            bytes.push_reserved((wide >> count) as u8);
            pending = wide % (1 << count);
        }
    }
    if count < 5 && pending == 0 {
        Some(bytes)
    } else {
        None
    }
}
