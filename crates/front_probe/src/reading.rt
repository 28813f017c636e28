//! The tokens and the tree of a source, or the line that says why there are none.
use mo_lexer::lex;
use mo_parser::parse;
use mo_syntax::{Kinds, Tokens, Tree};
use probe_base::Stop;
use std::alloc::Global;

/// What was read, or the line that says why it was not.
pub(crate) type Read<T> = Result<T, String>;

/// The tokens of a source.
pub(crate) fn tokens_of(alloc: Global, source: &[u8]) -> Result<Read<Tokens>, Stop> {
    match lex(alloc, source) {
        Ok(tokens) => Ok(Ok(tokens)),
        Err(fault) => Ok(Err(format!(in alloc; "{fault:?}\n")?)),
    }
}

/// The tokens of a source without their places, but for those of names and texts.
pub(crate) fn kinds_of(alloc: Global, source: &[u8]) -> Result<Read<Kinds>, Stop> {
    let tokens = match tokens_of(alloc, source)? {
        Ok(tokens) => tokens,
        Err(line) => return Ok(Err(line)),
    };
    let mut kinds = Kinds::new(alloc);
    for token in tokens.into_vec() {
        kinds.push(token.kind)?;
    }
    Ok(Ok(kinds))
}

/// The tree of a source.
pub(crate) fn tree_of(alloc: Global, source: &[u8]) -> Result<Read<Tree>, Stop> {
    let tokens = match tokens_of(alloc, source)? {
        Ok(tokens) => tokens,
        Err(line) => return Ok(Err(line)),
    };
    match parse(alloc, tokens.as_slice()) {
        Ok(tree) => Ok(Ok(tree)),
        Err(fault) => Ok(Err(format!(in alloc; "{fault:?}\n")?)),
    }
}
