//! Whether a source has a tree, and the tokens of the tree.
use crate::lexing::token_line;
use crate::reading::tree_of;
use mo_tokens::tokens;
use probe_base::Stop;
use std::alloc::Global;

/// `ok`, or the fault.
pub(crate) fn parse_source(alloc: Global, source: &[u8]) -> Result<String, Stop> {
    match tree_of(alloc, source)? {
        Ok(_) => Ok(String::from_str(alloc, "ok\n")?),
        Err(line) => Ok(line),
    }
}

/// The tree's own tokens, written as those of a source are.
pub(crate) fn tree_tokens(alloc: Global, source: &[u8]) -> Result<String, Stop> {
    match tree_of(alloc, source)? {
        Ok(tree) => Ok(token_line(alloc, tokens(alloc, &tree)?.as_slice())?),
        Err(line) => Ok(line),
    }
}
