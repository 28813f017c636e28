//! Numbers of tokens, and names.
ghost use Rattle.std.specs.Prelude.{◌≡◌, ◌+◌, ◌≤◌, IfOk};
ghost use Rattle.typing_rules.specs.Spans as spans;
ghost use Rattle.typing_rules.specs.Spans.{literal_of, name_at};
ghost use Rattle.abstract_types.specs.TypeView.{named};

use crate::names::PlacedName;
use mo_num::{Bytes, Memory};
use mo_syntax::{Literal, Name};
use std::alloc::Global;

/// The number of the token behind so many, from the one of this number on. `Memory` where there are more tokens than numbers:
/// so many does no memory hold.
pub fn number_behind(at: u32, tokens: u32) -> Result<u32, Memory>
    ensures { IfOk result (λ behind. behind ≡ at + tokens) }
{
    at.checked_add(tokens).ok_or(Memory)
}

/// How many tokens a mark or word takes that may stand or not.
pub fn count_if(stands: bool) -> u32
    ensures count { result ≡ spans.flag stands }
    ensures small { result ≤ 1 }
{
    if stands { 1 } else { 0 }
}

/// The name, where it is the token of this number.
pub fn placed_name(alloc: Global, name: &Name, at: u32) -> Result<PlacedName, Memory>
    ensures { IfOk result (λ made. named made ≡ name_at name.now at) }
{
    Ok(PlacedName {
        at,
        bytes: Bytes::from_slice(alloc, name.as_slice())?,
    })
}

/// The literal once more.
pub fn copied_literal(alloc: Global, literal: &Literal) -> Result<Literal, Memory>
    ensures { IfOk result (λ made. literal_of made ≡ literal_of literal.now) }
{
    match literal {
        Literal::Number(number) => Ok(Literal::Number(*number)),
        Literal::Character(character) => Ok(Literal::Character(*character)),
        Literal::Text(text) => Ok(Literal::Text(text.copy(alloc)?)),
        Literal::True => Ok(Literal::True),
        Literal::False => Ok(Literal::False),
        Literal::Null => Ok(Literal::Null),
    }
}
