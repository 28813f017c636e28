//! The tree of a list of tokens.
ghost use Rattle.std.specs.Prelude.{IfOk, length};
ghost use Rattle.mo_syntax.specs.declared.program.Tree.{Tree as ATree};
ghost use Rattle.mo_syntax.specs.ProgramGrammar.{Spells};
ghost use Rattle.mo_parser_base.specs.Input.{kinds};
ghost use Rattle.mo_depth.specs.Depth.{AreShallow};
ghost use Rattle.mo_parser.specs.Answers.{Answers, Finds, IsHeld, IsPlace, IsRead};

use crate::fault::ParseFault;
use crate::program::program;
use mo_depth::{ask_for_stack, first_deep};
use mo_parser_base::{Cursor, Stop};
use mo_syntax::{Token, Tree};
use std::alloc::Global;

// Where the reading stopped: where the token starts from which so many are left, where the last one ends, or 0.
fn place_of(tokens: &[Token], left: usize) -> u32
    ensures { IsPlace result tokens.now }
{
    if tokens.is_empty() {
        return 0;
    }
    if left == 0 || left > tokens.len() {
        return tokens[tokens.len() - 1].end;
    }
    tokens[tokens.len() - left].start
}

// The tree of tokens that are not too deep.
fn shallow(alloc: Global, tokens: &[Token]) -> Result<Tree, ParseFault>
    ensures { IsRead tokens.now result }
{
    let mut cursor = Cursor::new(tokens);
    match program(alloc, &mut cursor) {
        Ok(tree) => Ok(tree),
        Err(Stop::Refused) => Err(ParseFault::Syntax(place_of(tokens, cursor.left()))),
        Err(Stop::Memory) => Err(ParseFault::Memory),
    }
}

/// The tree that spells the tokens, or the fault: `TooDeep` where a token stands too deep, and else `Syntax` where no tree spells them.
/// `Memory` where there was none for the tree, or where the native stack might not hold the reading: a tree, or `Syntax`, is only answered of
/// tokens that `ask_for_stack` lets pass.
#[tactic(auto, using(crate::proofs::Answered::only))]
pub fn parse(alloc: Global, tokens: &[Token]) -> Result<Tree, ParseFault>
    ensures answers { Answers tokens.now result }
    ensures found { IfOk result (λ tree. Spells tree (kinds tokens.now)) }
    ensures held { IsHeld tokens.now result }
    ensures only { (tree : ATree) → Spells tree (kinds tokens.now) → AreShallow (length tokens.now) tokens.now → Finds tree result }
{
    match first_deep(alloc, tokens)? {
        Some(place) => Err(ParseFault::TooDeep(place)),
        None => {
            ask_for_stack(alloc, tokens)?;
            shallow(alloc, tokens)
        }
    }
}
