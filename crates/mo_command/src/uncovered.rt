//! The lines of the switches that miss a value.
ghost use Rattle.std.specs.Prelude.{◌≡◌, IfOk};
ghost use Rattle.outer.specs.Causes.{HasCause};
ghost use Rattle.typed_tree.specs.WellTyped.{WellTyped};
ghost use Rattle.mo_front.specs.Fronts.{Accepted};
ghost use Rattle.mo_play.specs.Transcripts.{IsPut};
ghost use Rattle.mo_command.specs.Uncovered.{AreLines, AreShown, IsUncoveredLine, joined};

use crate::line::numbered;
use mo_front::{line_and_column, token_start};
use mo_lexer::lex;
use mo_num::{Bytes, Memory};
use mo_syntax::Token;
use outer::{OutsideFault, Sink};
use std::alloc::Global;
use switch_coverage::{Uncovered, uncovered_switches};
use typed_tree::Program;

fn line_at(alloc: Global, source: &[u8], place: u32) -> Result<Bytes, Memory>
    ensures { IfOk result (IsUncoveredLine source.now place) }
{
    let (row, column) = line_and_column(alloc, source, place)?;
    let back = numbered(alloc, b":", column as u64, b"\n")?;
    numbered(alloc, b"uncovered ", row as u64, back.as_slice())
}

fn lines_of(
    alloc: Global,
    source: &[u8],
    tokens: &[Token],
    found: &[Uncovered],
) -> Result<Vec<Bytes>, Memory>
    ensures { IfOk result (λ made. AreLines source.now tokens.now found.now made.items) }
{
    let mut made = Vec::new(alloc);
    for one in found {
        made.push(line_at(alloc, source, token_start(tokens, one.token))?)?;
    }
    Ok(made)
}

/// The lines of an accepted source, in the order of its switches. The recursion is as deep as the program.
pub(crate) fn uncovered_lines(
    alloc: Global,
    source: &[u8],
    made: &Program,
) -> Result<Vec<Bytes>, Memory>
    requires accepted { Accepted source.now made.now }
    requires typed { WellTyped made.now }
    ensures { IfOk result (λ lines. AreShown source.now lines.items) }
{
    let found = uncovered_switches(alloc, made)?;
    match lex(alloc, source) {
        Ok(tokens) => lines_of(alloc, source, tokens.as_slice(), found.as_slice()),
        // An accepted source has tokens, so this is want of memory.
        Err(_) => Err(Memory),
    }
}

fn put_line<O: Sink>(line: &Bytes, out: &mut O) -> Result<(), OutsideFault>
    ensures put { IsPut (λ text. text ≡ line.now) (O.shown out.old) (O.shown out.new) result }
    ensures cause { HasCause (O.faults out.old) (O.faults out.new) result }
{
    match out.put(line.as_slice()) {
        Ok(()) => Ok(()),
        Err(fault) => Err(fault),
    }
}

/// Puts each line by one put. After an error a prefix of them was put.
pub(crate) fn put_lines<O: Sink>(lines: &[Bytes], out: &mut O) -> Result<(), OutsideFault>
    ensures put { IsPut (λ text. text ≡ joined lines.now) (O.shown out.old) (O.shown out.new) result }
    ensures cause { HasCause (O.faults out.old) (O.faults out.new) result }
{
    for line in lines {
        match put_line(line, out) {
            Ok(()) => {}
            Err(fault) => return Err(fault),
        }
    }
    Ok(())
}
