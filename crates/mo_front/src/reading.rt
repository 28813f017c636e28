//! The layers in turn.
ghost use Rattle.std.specs.Prelude.{◌≡◌, IfOk};
ghost use Rattle.typed_tree.specs.WellTyped.{WellTyped};
ghost use Rattle.mo_front.specs.Fronts.{Answers};
ghost use Rattle.mo_front.specs.Layers.{BindsNames, FindsTokens, FindsTree, FindsTypes, OfTokens, OfTree};
ghost use Rattle.mo_front.specs.Places.{token_start};

use crate::fault::FrontFault;
use mo_check::TypeFault;
use mo_lexer::{LexFault, lex};
use mo_names::NameFault;
use mo_order::resolve;
use mo_parser::{ParseFault, parse};
use mo_syntax::{Token, Tokens, Tree};
use std::alloc::Global;
use typed_programs::typed_program;
use typed_tree::Program;

fn tokens_of(alloc: Global, source: &[u8]) -> Result<Tokens, FrontFault>
    ensures { FindsTokens source.now result }
{
    match lex(alloc, source) {
        Ok(tokens) => Ok(tokens),
        Err(LexFault::Memory) => Err(FrontFault::Memory),
        Err(fault) => Err(FrontFault::Lex(fault)),
    }
}

fn tree_of(alloc: Global, tokens: &[Token]) -> Result<Tree, FrontFault>
    ensures { FindsTree tokens.now result }
{
    match parse(alloc, tokens) {
        Ok(tree) => Ok(tree),
        Err(ParseFault::Memory) => Err(FrontFault::Memory),
        Err(fault) => Err(FrontFault::Parse(fault)),
    }
}

fn bind_names(alloc: Global, tree: &Tree) -> Result<(), FrontFault>
    ensures { BindsNames tree.now result }
{
    match resolve(alloc, tree) {
        Ok(_) => Ok(()),
        Err(NameFault::Memory) => Err(FrontFault::Memory),
        Err(fault) => Err(FrontFault::Name(fault)),
    }
}

/// Where the token of this number starts.
pub fn token_start(tokens: &[Token], number: u32) -> u32
    ensures { result ≡ token_start tokens.now number }
{
    match tokens.get(number as usize) {
        Some(token) => token.start,
        None => 0,
    }
}

fn types_of(alloc: Global, tokens: &[Token], tree: &Tree) -> Result<Program, FrontFault>
    ensures { FindsTypes tokens.now tree.now result }
{
    match typed_program(alloc, tree) {
        Ok(made) => Ok(made),
        Err(TypeFault::Memory) => Err(FrontFault::Memory),
        Err(TypeFault::False { place, condition }) => {
            let place = token_start(tokens, place);
            Err(FrontFault::Type { condition, place })
        }
    }
}

fn read_tree(alloc: Global, tokens: &[Token], tree: &Tree) -> Result<Program, FrontFault>
    ensures { OfTree tokens.now tree.now result }
{
    bind_names(alloc, tree)?;
    types_of(alloc, tokens, tree)
}

fn read_tokens(alloc: Global, tokens: &[Token]) -> Result<Program, FrontFault>
    ensures { OfTokens tokens.now result }
{
    let tree = tree_of(alloc, tokens)?;
    read_tree(alloc, tokens, &tree)
}

/// The typed program of a source, exactly where it is accepted, or else the fault of the first layer that refuses it, with its place in bytes.
/// The recursion is as deep as the tree, which the parser limits. Want of memory refuses nothing.
pub fn front(alloc: Global, source: &[u8]) -> Result<Program, FrontFault>
    ensures answer { Answers source.now result }
    ensures well_typed { IfOk result WellTyped }
{
    let tokens = tokens_of(alloc, source)?;
    read_tokens(alloc, tokens.as_slice())
}
