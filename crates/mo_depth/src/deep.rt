//! The first token that stands too deep.
ghost use Rattle.std.specs.Prelude.{IfOk, MatchOption, length};
ghost use Rattle.mo_depth.specs.Depth.{AreShallow, IsDeepAt};

use crate::nesting::Nesting;
use crate::role::role_of;
use mo_num::Memory;
use mo_syntax::Token;
use std::alloc::Global;

/// The greatest depth of a token.
const MOST: usize = 400;

/// Where the first token starts whose depth passes 400, if there is one.
pub fn first_deep(alloc: Global, tokens: &[Token]) -> Result<Option<u32>, Memory>
    ensures { IfOk result (λ found. MatchOption found (AreShallow (length tokens.now) tokens.now) (λ place. IsDeepAt place tokens.now)) }
{
    let mut nesting = Nesting::new(alloc);
    for token in tokens {
        if nesting.depth > MOST {
            return Ok(Some(token.start));
        }
        nesting.step(role_of(&token.kind))?;
    }
    Ok(None)
}
