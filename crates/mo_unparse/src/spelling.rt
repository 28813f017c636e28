//! Lists of tokens.
ghost use Rattle.std.specs.Prelude.{List, ℕ, IfOk};
ghost use Rattle.mo_syntax.specs.Parts.{Each};
ghost use Rattle.mo_syntax.specs.ProgramGrammar.{tree_tokens};
ghost use Rattle.mo_unparse.specs.Writable.{AreWritable, IsOfLanguage, LexesTo};

use crate::last::{Last, last_of};
use crate::token::put_next;
use mo_num::{Bytes, Memory};
use mo_syntax::{TokenKind, Tree};
use mo_tokens::tokens;
use std::alloc::Global;

/// A text of the tree's own tokens. Where each name is an identifier and each character a Unicode scalar value, by the
/// Motoko language manual (lexical structure), the text is read as these tokens, with the places of names and texts
/// in this text. Nothing is said of other trees.
pub fn unparse(alloc: Global, tree: &Tree) -> Result<Bytes, Memory>
    ensures written { IfOk result (λ text. Each IsOfLanguage (tree_tokens tree.now) → LexesTo text (tree_tokens tree.now)) }

    // Where any text is read as these tokens, this one is.
    ensures possible { (other : List ℕ) → LexesTo other (tree_tokens tree.now) → IfOk result (λ text. LexesTo text (tree_tokens tree.now)) }
{
    let kinds = tokens(alloc, tree)?;
    spell(alloc, kinds.as_slice())
}

/// A text of the tokens. Where each name is an identifier, each character a Unicode scalar value and each mark `#` of a tag
/// has its identifier behind it, the text is read as these tokens, with the places of names and texts in this text. Nothing
/// is said of other lists.
pub fn spell(alloc: Global, kinds: &[TokenKind]) -> Result<Bytes, Memory>
    ensures written { IfOk result (λ text. AreWritable kinds.now → LexesTo text kinds.now) }

    // Where any text is read as these tokens, this one is.
    ensures possible { (other : List ℕ) → LexesTo other kinds.now → IfOk result (λ text. LexesTo text kinds.now) }
{
    let mut out = Bytes::new(alloc);
    let mut last = Last::Other;
    for kind in kinds {
        put_next(&mut out, last, kind)?;
        last = last_of(kind);
    }
    out.push(b'\n')?;
    Ok(out)
}
