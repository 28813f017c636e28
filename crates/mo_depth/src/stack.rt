//! Room on the native stack.
ghost use Rattle.std.specs.Prelude.{IfOk, length};
ghost use Rattle.mo_depth.specs.Stack.{AreHeld};

use crate::room::Room;
use mo_num::Memory;
use mo_syntax::Token;
use std::alloc::Global;

/// Asks whether the native stack can hold the reading of these tokens and the calls over their tree. The depth does not bound these: a `,` in
/// the `< >` of types resets the count of the bracket around them, and behind a closing mark no more is counted of what stood in its bracket,
/// though what goes on there may hold it. `Memory` where they might take more than there is, or where no memory was left for this question.
pub fn ask_for_stack(alloc: Global, tokens: &[Token]) -> Result<(), Memory>
    ensures { IfOk result (λ _. AreHeld (length tokens.now) tokens.now) }
{
    let mut room = Room::new(alloc);
    for token in tokens {
        room.ask()?;
        room.take(&token.kind)?;
    }
    Ok(())
}
