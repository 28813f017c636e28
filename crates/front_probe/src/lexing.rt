//! The tokens of a source.
use crate::reading::{kinds_of, tokens_of};
use mo_syntax::{Mark, TokenKind};
use probe_base::Stop;
use std::alloc::{AllocError, Global};

/// A letter for each token and its text (identifier, word, number, character, text, mark, angle bracket, tag mark), or
/// the fault.
pub(crate) fn lex_source(alloc: Global, source: &[u8]) -> Result<String, Stop> {
    match kinds_of(alloc, source)? {
        Ok(kinds) => Ok(token_line(alloc, kinds.as_slice())?),
        Err(line) => Ok(line),
    }
}

/// A letter for each of the tokens and its text.
pub(crate) fn token_line(alloc: Global, kinds: &[TokenKind]) -> Result<String, AllocError> {
    let mut out = String::new(alloc);
    for kind in kinds {
        put_token(alloc, &mut out, kind)?;
    }
    out.push('\n')?;
    Ok(out)
}

fn put_token(alloc: Global, out: &mut String, kind: &TokenKind) -> Result<(), AllocError> {
    match kind {
        TokenKind::Identifier(name) => put_bytes(alloc, out, 'i', name.as_slice()),
        TokenKind::Reserved(word) => put_bytes(alloc, out, 'w', word.text()),
        TokenKind::Number(n) => out.push_str(format!(in alloc; "n{n} ")?.as_str()),
        TokenKind::Character(c) => out.push_str(format!(in alloc; "c{c} ")?.as_str()),
        TokenKind::Text(text) => put_bytes(alloc, out, 't', text.as_slice()),
        TokenKind::Mark(Mark::AngleOpen | Mark::AngleClose) => out.push_str("angle "),
        TokenKind::Mark(Mark::Tag) => out.push_str("tag "),
        TokenKind::Mark(mark) => put_bytes(alloc, out, 'm', mark.text()),
    }
}

// The letter and the bytes, those that are no visible characters as numbers.
fn put_bytes(
    alloc: Global,
    out: &mut String,
    letter: char,
    bytes: &[u8],
) -> Result<(), AllocError> {
    out.push(letter)?;
    for byte in bytes {
        if byte.is_ascii_graphic() {
            out.push(*byte as char)?;
        } else {
            out.push_str(format!(in alloc; "<{byte}>")?.as_str())?;
        }
    }
    out.push(' ')
}

/// Where each token starts and ends.
pub(crate) fn token_places(alloc: Global, source: &[u8]) -> Result<String, Stop> {
    let tokens = match tokens_of(alloc, source)? {
        Ok(tokens) => tokens,
        Err(line) => return Ok(line),
    };
    let mut out = String::new(alloc);
    for token in tokens.as_slice() {
        let start = token.start;
        let end = token.end;
        out.push_str(format!(in alloc; "{start}-{end} ")?.as_str())?;
    }
    out.push('\n')?;
    Ok(out)
}

/// How many tokens there are, and where the last one starts.
pub(crate) fn token_count(alloc: Global, source: &[u8]) -> Result<String, Stop> {
    let tokens = match tokens_of(alloc, source)? {
        Ok(tokens) => tokens,
        Err(line) => return Ok(line),
    };
    let count = tokens.len();
    let start = match tokens.as_slice() {
        [.., last] => last.start,
        [] => 0,
    };
    Ok(format!(in alloc; "{count} tokens, the last from {start} on\n")?)
}
