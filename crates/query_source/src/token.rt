//! Reads one token after another. Motoko language manual, sections Whitespace, Keywords and Identifiers.
ghost use Rattle.std.specs.Prelude.{◌≡◌, List, ℕ, true, not, ◌&&◌, map, IfSome, IfNone};
ghost use Rattle.query_source.specs.Tokens.{begins_word, is_blank, is_digit, is_letter, is_word_byte, Next, Reads};
ghost use Rattle.query_source.specs.Reading.{after_blanks, after_word, is_solid, token_text, word_of};

/// The tokens that stand in each source.
#[derive(Clone, Copy, Debug, PartialEq, Eq)]
pub enum Token {
    Actor,
    Public,
    Query,
    Func,
    Async,
    Nat,
    OpenBrace,
    CloseBrace,
    OpenParenthesis,
    CloseParenthesis,
    Colon,
    Semicolon,
}

/// A space or a newline.
pub fn is_blank(byte: u8) -> bool
    ensures { result ≡ is_blank byte }
{
    byte == b' ' || byte == b'\n'
}

/// An ASCII letter.
pub fn is_letter(byte: u8) -> bool
    ensures { result ≡ is_letter byte }
{
    (b'A' <= byte && byte <= b'Z') || (b'a' <= byte && byte <= b'z')
}

/// A decimal digit.
pub fn is_digit(byte: u8) -> bool
    ensures { result ≡ is_digit byte }
{
    b'0' <= byte && byte <= b'9'
}

fn is_word_byte(byte: u8) -> bool
    ensures { result ≡ is_word_byte byte }
{
    is_letter(byte) || is_digit(byte)
}

fn begins_word(text: &[u8]) -> bool
    ensures { result ≡ begins_word text.now }
{
    match text {
        [] => false,
        [first, ..] => is_word_byte(*first),
    }
}

/// What is left behind the blanks at the begin of the text.
pub fn after_blanks(text: &[u8]) -> &[u8]
    ensures { result.now ≡ after_blanks text.now }
{
    let mut rest = text;
    while let [first, tail @ ..] = rest {
        if !is_blank(*first) {
            break;
        }
        rest = tail;
    }
    rest
}

/// The letters and digits that come next behind blanks, and what follows them.
pub fn word(text: &[u8]) -> (&[u8], &[u8])
    ensures run { result.0.now ≡ word_of (after_blanks text.now) }
    ensures rest { result.1.now ≡ after_word (after_blanks text.now) }
{
    let start = after_blanks(text);
    let mut count = 0;
    for byte in start {
        if !is_word_byte(*byte) {
            break;
        }
        count += 1;
    }
    start.split_at(count)
}

fn token_text(token: Token) -> &'static [u8]
    ensures text { result.now ≡ token_text token }
    ensures solid { is_solid (token_text token) ≡ true }
{
    match token {
        Token::Actor => b"actor",
        Token::Public => b"public",
        Token::Query => b"query",
        Token::Func => b"func",
        Token::Async => b"async",
        Token::Nat => b"Nat",
        Token::OpenBrace => b"{",
        Token::CloseBrace => b"}",
        Token::OpenParenthesis => b"(",
        Token::CloseParenthesis => b")",
        Token::Colon => b":",
        Token::Semicolon => b";",
    }
}

// A word does not run on into what follows it.
fn is_apart(token: &[u8], rest: &[u8]) -> bool
    ensures { result ≡ not (begins_word token.now && begins_word rest.now) }
{
    !(begins_word(token) && begins_word(rest))
}

fn expect_text<'a>(text: &'a [u8], token: &[u8]) -> Option<&'a [u8]>
    requires { is_solid token.now ≡ true }
    ensures some { IfSome result (λ rest. Next token.now text.now rest.now) }
    ensures none { IfNone result ((rest : List ℕ) → Next token.now text.now rest → ⊥) }
{
    let Some(rest) = after_blanks(text).strip_prefix(token) else {
        return None;
    };
    if is_apart(token, rest) {
        Some(rest)
    } else {
        None
    }
}

/// What follows the token, if it comes next.
pub fn expect(text: &[u8], token: Token) -> Option<&[u8]>
    ensures some { IfSome result (λ rest. Next (token_text token) text.now rest.now) }
    ensures none { IfNone result ((rest : List ℕ) → Next (token_text token) text.now rest → ⊥) }
    ensures solid { is_solid (token_text token) ≡ true }
{
    match expect_text(text, token_text(token)) {
        Some(rest) => Some(rest),
        None => None,
    }
}

/// What follows the tokens, if they come next.
pub fn expect_all<'a>(text: &'a [u8], tokens: &[Token]) -> Option<&'a [u8]>
    ensures some { IfSome result (λ rest. Reads (map token_text tokens.now) text.now rest.now) }
    ensures none { IfNone result ((rest : List ℕ) → Reads (map token_text tokens.now) text.now rest → ⊥) }
{
    let mut rest = text;
    for token in tokens {
        let Some(after) = expect(rest, *token) else {
            return None;
        };
        rest = after;
    }
    Some(rest)
}
