//! Reads the methods of an actor, up to the end of the source.
//! Motoko language manual, sections Declaration syntax and Declaration fields.
ghost use Rattle.std.specs.Prelude.{◌≡◌, List, ℕ, [], ◌∷◌, ◌⊎◌, ◌↔◌, codes, IsTrue, IfSome, IfNone, IfOk, IfErr};
ghost use Rattle.query_source.specs.declared.query.Method.{Method};
ghost use Rattle.query_source.specs.Tokens.{IsText, Next};
ghost use Rattle.query_source.specs.Words.{IsName};
ghost use Rattle.query_source.specs.Reading.{BeginsMethod, BeginsNumber, EndsMethods};

use crate::query::{Method, Methods, SourceFault};
use crate::token::{Token, after_blanks, expect, expect_all, word};
use crate::words::{is_name, numeral};
use mo_num::Bytes;
use std::alloc::Global;

// A method, and what follows it.
#[derive(Clone, Copy)]
struct Found<'a> {
    name: &'a [u8],
    number: u64,
    rest: &'a [u8],
}

// The name that comes next, and what follows it.
fn read_name(text: &[u8]) -> Option<(&[u8], &[u8])>
    ensures some { IfSome result (λ found. IsName found.0.now × Next found.0.now text.now found.1.now) }
    ensures none { IfNone result ((name rest : List ℕ) → IsName name → Next name text.now rest → ⊥) }
{
    let (name, rest) = word(text);
    if is_name(name) {
        Some((name, rest))
    } else {
        None
    }
}

// The number that comes next, and what follows it.
fn read_number(text: &[u8]) -> Option<(u64, &[u8])>
    ensures some { IfSome result (λ found. BeginsNumber found.0 text.now found.1.now) }
    ensures none { IfNone result ((number : ℕ) (rest : List ℕ) → BeginsNumber number text.now rest → ⊥) }
{
    let (digits, rest) = word(text);
    match numeral(digits) {
        Some(number) => Some((number, rest)),
        None => None,
    }
}

fn read_method(text: &[u8]) -> Option<Found<'_>>
    ensures some { IfSome result
        (λ found. BeginsMethod (record { name = found.name.now; number = found.number }) text.now found.rest.now) }
    ensures none { IfNone result
        ((method : Method) (rest : List ℕ) → BeginsMethod method text.now rest → ⊥) }
{
    let before_name = [Token::Public, Token::Query, Token::Func];
    let Some(at_name) = expect_all(text, &before_name) else {
        return None;
    };
    let Some((name, behind_name)) = read_name(at_name) else {
        return None;
    };
    let before_number = [
        Token::OpenParenthesis,
        Token::CloseParenthesis,
        Token::Colon,
        Token::Async,
        Token::Nat,
        Token::OpenBrace,
    ];
    let Some(at_number) = expect_all(behind_name, &before_number) else {
        return None;
    };
    let Some((number, behind_number)) = read_number(at_number) else {
        return None;
    };
    match expect(behind_number, Token::CloseBrace) {
        Some(rest) => Some(Found { name, number, rest }),
        None => None,
    }
}

// Only the last brace and blanks are left.
fn closes(text: &[u8]) -> bool
    ensures { IsTrue result ↔ IsText (codes "}" ∷ []) text.now }
{
    match expect(text, Token::CloseBrace) {
        Some(rest) => after_blanks(rest).is_empty(),
        None => false,
    }
}

fn closed(methods: Methods, text: &[u8]) -> Result<Methods, SourceFault>
    ensures ok { IfOk result (λ same. (same ≡ methods) × IsText (codes "}" ∷ []) text.now) }
    ensures err { IfErr result
        (λ fault. (fault ≡ SourceFault.NotYet) × (IsText (codes "}" ∷ []) text.now → ⊥)) }
{
    if closes(text) {
        Ok(methods)
    } else {
        Err(SourceFault::NotYet)
    }
}

/// The methods that are left of the source, up to the last brace, behind which only blanks stand.
pub fn read_methods(alloc: Global, text: &[u8]) -> Result<Methods, SourceFault>
    ensures found { IfOk result (λ methods. EndsMethods methods text.now) }
    ensures only { (methods : List Method) → EndsMethods methods text.now
        → (result ≡ Ok methods) ⊎ (result ≡ Err SourceFault.Memory) }
{
    let mut methods = Methods::new(alloc);
    let mut rest = text;
    while let Some(found) = read_method(rest) {
        methods.push(Method {
            name: Bytes::from_slice(alloc, found.name)?,
            number: found.number,
        })?;
        let Some(next) = expect(found.rest, Token::Semicolon) else {
            return closed(methods, found.rest);
        };
        rest = next;
    }
    closed(methods, rest)
}
