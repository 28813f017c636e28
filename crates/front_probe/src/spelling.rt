//! Texts of trees and of tokens, and whether they are read as the tokens that they were made of.
use crate::reading::{kinds_of, tree_of};
use mo_syntax::{Kinds, Name, Place, TokenKind};
use mo_tokens::tokens;
use mo_unparse::{spell, unparse};
use probe_base::{Stop, put_text};
use std::alloc::Global;

const NOWHERE: Place = Place { start: 0, end: 0 };

fn same(a: &TokenKind, b: &TokenKind) -> bool {
    match (a, b) {
        (TokenKind::Identifier(x), TokenKind::Identifier(y)) => x.same(y),
        (TokenKind::Reserved(x), TokenKind::Reserved(y)) => *x == *y,
        (TokenKind::Number(x), TokenKind::Number(y)) => *x == *y,
        (TokenKind::Character(x), TokenKind::Character(y)) => *x == *y,
        (TokenKind::Text(x), TokenKind::Text(y)) => x.as_slice() == y.as_slice(),
        (TokenKind::Mark(x), TokenKind::Mark(y)) => *x == *y,
        _ => false,
    }
}

// Whether the lists are the same, wherever their names and texts stand.
fn all_same(a: &[TokenKind], b: &[TokenKind]) -> bool {
    a.len() == b.len() && a.iter().zip(b).all(|(x, y)| same(x, y))
}

// Whether the text is read as these tokens.
fn is_read_as(alloc: Global, text: &[u8], kinds: &[TokenKind]) -> Result<bool, Stop> {
    match kinds_of(alloc, text)? {
        Ok(again) => Ok(all_same(again.as_slice(), kinds)),
        Err(_) => Ok(false),
    }
}

/// The text of the source's tree.
pub(crate) fn unparse_source(alloc: Global, source: &[u8]) -> Result<String, Stop> {
    let tree = match tree_of(alloc, source)? {
        Ok(tree) => tree,
        Err(line) => return Ok(line),
    };
    let mut out = String::new(alloc);
    put_text(alloc, &mut out, unparse(alloc, &tree)?.as_slice())?;
    Ok(out)
}

/// `same` where the source, its tree and the text of its tree have the same tokens, and else that text.
pub(crate) fn there_and_back(alloc: Global, source: &[u8]) -> Result<String, Stop> {
    let tree = match tree_of(alloc, source)? {
        Ok(tree) => tree,
        Err(line) => return Ok(line),
    };
    let written = tokens(alloc, &tree)?;
    let text = unparse(alloc, &tree)?;
    if is_read_as(alloc, source, written.as_slice())?
        && is_read_as(alloc, text.as_slice(), written.as_slice())?
    {
        return Ok(String::from_str(alloc, "same\n")?);
    }
    let mut out = String::from_str(alloc, "other tokens:")?;
    put_text(alloc, &mut out, text.as_slice())?;
    Ok(out)
}

// The text of the tokens, and how many tokens it is read as where these are others.
fn spelled(alloc: Global, kinds: &[TokenKind]) -> Result<String, Stop> {
    let text = spell(alloc, kinds)?;
    let mut out = String::new(alloc);
    put_text(alloc, &mut out, text.as_slice())?;
    match kinds_of(alloc, text.as_slice())? {
        Ok(again) => {
            let count = again.len();
            if !all_same(again.as_slice(), kinds) {
                out.push_str(format!(in alloc; "other tokens: {count}\n")?.as_str())?;
            }
        }
        Err(line) => out.push_str(line.as_str())?,
    }
    Ok(out)
}

/// The text of the source's tokens.
pub(crate) fn spell_source(alloc: Global, source: &[u8]) -> Result<String, Stop> {
    match kinds_of(alloc, source)? {
        Ok(kinds) => spelled(alloc, kinds.as_slice()),
        Err(line) => Ok(line),
    }
}

/// The text of one name with these bytes, be it none that a source has.
pub(crate) fn spell_name(alloc: Global, bytes: &[u8]) -> Result<String, Stop> {
    let mut kinds = Kinds::new(alloc);
    kinds.push(TokenKind::Identifier(Name::new(alloc, NOWHERE, bytes)?))?;
    spelled(alloc, kinds.as_slice())
}
