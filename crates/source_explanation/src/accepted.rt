//! Sources that are accepted.
ghost use Rattle.std.specs.Prelude.{IfOk};
ghost use Rattle.typed_tree.specs.WellTyped.{WellTyped};
ghost use Rattle.mo_front.specs.Fronts.{Accepted};
ghost use Rattle.source_explanation.specs.Misses.{AreMissed, AreMissedTexts, IsMissedText};

use crate::shown::shown;
use mo_front::token_start;
use mo_lexer::lex;
use mo_num::{Bytes, Memory};
use mo_syntax::Token;
use mo_types::TypeGraph;
use pattern_coverage::types_with_values;
use shape_patterns::missed_pattern;
use std::alloc::Global;
use switch_coverage::{Uncovered, uncovered_switches};
use typed_tree::Program;

// The line of a switch, and a case that it misses.
fn missed_text(
    alloc: Global,
    source: &[u8],
    tokens: &[Token],
    types: &TypeGraph,
    table: &[bool],
    one: &Uncovered,
) -> Result<Bytes, Memory>
    ensures { IfOk result (IsMissedText source.now tokens.now types.now table.now one.now) }
{
    let case = missed_pattern(alloc, types, table, &one.missed, one.of_type)?;
    let mut lacks = Bytes::from_slice(alloc, b"A case that it lacks:")?;
    lacks.extend(case.as_slice())?;
    let place = token_start(tokens, one.token);
    shown(
        alloc,
        source,
        place,
        b"The switch misses values.",
        lacks.as_slice(),
    )
}

// Those of all of these switches, one behind another.
fn missed_texts(
    alloc: Global,
    source: &[u8],
    tokens: &[Token],
    types: &TypeGraph,
    table: &[bool],
    found: &[Uncovered],
) -> Result<Bytes, Memory>
    ensures { IfOk result (AreMissedTexts source.now tokens.now types.now table.now found.now) }
{
    let mut made = Bytes::new(alloc);
    for one in found {
        let text = missed_text(alloc, source, tokens, types, table, one)?;
        made.extend(text.as_slice())?;
    }
    Ok(made)
}

/// For each switch that misses a value its line and a case that it misses, in the order of the source. The recursion is as deep as the
/// program.
pub(crate) fn missed(alloc: Global, source: &[u8], made: &Program) -> Result<Bytes, Memory>
    requires accepted { Accepted source.now made.now }
    requires typed { WellTyped made.now }
    ensures { IfOk result (AreMissed source.now made.now) }
{
    let table = types_with_values(alloc, &made.types)?;
    let found = uncovered_switches(alloc, made)?;
    match lex(alloc, source) {
        Ok(tokens) => missed_texts(
            alloc,
            source,
            tokens.as_slice(),
            &made.types,
            table.as_slice(),
            found.as_slice(),
        ),
        // An accepted source has tokens, so this is want of memory.
        Err(_) => Err(Memory),
    }
}
