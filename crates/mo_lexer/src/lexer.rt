//! The lexer.
ghost use Rattle.std.specs.Prelude.{◌≡◌, ◌<◌, ◌≤◌, ◌^◌, ◌⊎◌, List, length, IfOk, IfErr, OnOk, ◌++◌};
ghost use Rattle.mo_lexer.specs.Found.{token_list};
ghost use Rattle.mo_syntax.specs.declared.token.Token.{Token};
ghost use Rattle.mo_syntax.specs.Lexed.{Lexed};
ghost use Rattle.mo_syntax.specs.Tokens.{AreInOrder};
ghost use Rattle.mo_lexer.specs.declared.fault.LexFault.{LexFault};
ghost use Rattle.mo_lexer.specs.Faults.{Faults};
ghost use Rattle.mo_lexer.specs.Answers.{TextStops, Gives, Refuses, ArePlaced};

use crate::fault::LexFault;
use crate::front::utf8_front;
use crate::piece::piece_at;
use crate::stop::Stop;
use mo_num::Memory;
use mo_syntax::{Before, Place, Token, TokenKind, Tokens};
use std::alloc::Global;

/// How many bytes a source may have.
pub const MOST_BYTES: usize = 1_048_576;

/// The tokens of the source with their places, or the first fault from left to right. Either answer is given exactly where
/// its definition holds, unless there is no memory.
pub fn lex(alloc: Global, source: &[u8]) -> Result<Tokens, LexFault>
    ensures found { IfOk result (λ tokens. (length source.now ≤ 1048576) × Lexed source.now tokens) }
    ensures fault { IfErr result (λ fault. (fault ≡ LexFault.Memory) ⊎ Faults source.now fault) }

    // No source has two answers, so each is given wherever it holds.
    ensures only_tokens { (tokens : List Token) → length source.now ≤ 1048576 → Lexed source.now tokens → Gives tokens result }
    ensures only_fault { (fault : LexFault) → Faults source.now fault → Refuses fault result }

    ensures ordered { IfOk result (AreInOrder 0 (length source.now)) }

    // Each name and text stands where its token does.
    ensures placed { IfOk result ArePlaced }
{
    answer(alloc, source)
}

// The tokens or the fault, by their definitions.
fn answer(alloc: Global, source: &[u8]) -> Result<Tokens, LexFault>
    ensures found { IfOk result (λ tokens. (length source.now ≤ 1048576) × Lexed source.now tokens) }
    ensures fault { IfErr result (λ fault. (fault ≡ LexFault.Memory) ⊎ Faults source.now fault) }
{
    if source.len() > MOST_BYTES {
        return Err(LexFault::SourceTooLong);
    }
    let front = utf8_front(source);
    match tokens_of(alloc, front) {
        Ok(tokens) => {
            if front.len() == source.len() {
                Ok(tokens)
            } else {
                Err(LexFault::BadByte(front.len() as u32))
            }
        }
        Err(Stop::Met(fault)) => Err(fault),
        Err(Stop::AtEnd(fault)) => {
            if front.len() == source.len() {
                Err(fault)
            } else {
                Err(LexFault::BadByte(front.len() as u32))
            }
        }
        Err(Stop::Memory) => Err(LexFault::Memory),
    }
}

// The tokens of a text, or how its reading stops.
fn tokens_of(alloc: Global, text: &str) -> Result<Tokens, Stop>
    requires { length text.now < 2 ^ 31 }
    ensures ok { IfOk result (Lexed text.now) }
    ensures err { IfErr result (TextStops text.now) }
{
    let mut tokens = Tokens::new(alloc);
    let mut before = Before::Other;
    let mut place = 0;
    while place < text.len() {
        let found = piece_at(alloc, text, place, before)?;
        let end = place + found.len;
        before = found.before;
        add(&mut tokens, found.kind, place as u32, end as u32)?;
        place = end;
    }
    Ok(tokens)
}

// Adds the token of this kind, where there is one.
fn add(tokens: &mut Tokens, kind: Option<TokenKind>, start: u32, end: u32) -> Result<(), Memory>
    ensures { OnOk result (tokens.new ≡ tokens.old ++ token_list kind start end) }
{
    match kind {
        Some(kind) => tokens.push(Token {
            kind: kind.placed(Place { start, end }),
            start,
            end,
        }),
        None => Ok(()),
    }
}
