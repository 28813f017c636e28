//! Reads the source of an actor of constant queries.
ghost use Rattle.std.specs.Prelude.{◌≡◌, List, ◌⊎◌, IfOk, IsErrOf};
ghost use Rattle.query_source.specs.declared.query.Method.{Method};
ghost use Rattle.query_source.specs.Source.{IsSource};

use crate::actor::read_methods;
use crate::labels::have_distinct_ids;
use crate::query::{Methods, SourceFault};
use crate::token::{Token, expect_all};
use std::alloc::Global;

/// How many bytes a source has at most.
pub const LONGEST_SOURCE: usize = 4096;

/// The methods of the source, in its order. The answer is NotYet exactly where the source is not `actor { METHODS }` in
/// at most [`LONGEST_SOURCE`] bytes, with methods `public query func NAME() : async Nat { NUMBER }` parted by `;`, of
/// different names and Candid ids. It is Memory only where there was no memory for the methods.
/// Motoko language manual, sections Declaration syntax and Declaration fields.
pub fn read_source(alloc: Global, source: &[u8]) -> Result<Methods, SourceFault>
    ensures found { IfOk result (λ methods. IsSource methods source.now) }
    ensures only { (methods : List Method) → IsSource methods source.now
        → (result ≡ Ok methods) ⊎ (result ≡ Err SourceFault.Memory) }
    ensures not_yet { IsErrOf result SourceFault.NotYet → (methods : List Method) → IsSource methods source.now → ⊥ }
{
    if source.len() > LONGEST_SOURCE {
        return Err(SourceFault::NotYet);
    }
    let Some(rest) = expect_all(source, &[Token::Actor, Token::OpenBrace]) else {
        return Err(SourceFault::NotYet);
    };
    let methods = read_methods(alloc, rest)?;
    if have_distinct_ids(methods.as_slice()) {
        Ok(methods)
    } else {
        Err(SourceFault::NotYet)
    }
}
