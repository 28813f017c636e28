//! Whether the lexer, the parser and the rules of names accept a source.
use crate::naming::kind_and_place;
use byte_lanes::line_starts;
use mo_lexer::{LexFault, MOST_BYTES, lex, line_column};
use mo_order::resolve;
use mo_parser::{ParseFault, parse};
use probe_base::Stop;
use std::alloc::Global;

/// Why a source is refused: the kind of the fault, and its place in bytes.
#[derive(Clone, Copy)]
struct Refusal {
    kind: &'static str,
    place: u32,
}

fn lexical(fault: LexFault) -> Result<Refusal, Stop> {
    let kind = match fault {
        LexFault::BadByte(_) => "Lex.BadByte",
        LexFault::OpenComment(_) => "Lex.OpenComment",
        LexFault::OpenText(_) => "Lex.OpenText",
        LexFault::BadEscape(_) => "Lex.BadEscape",
        LexFault::WideNumber(_) => "Lex.WideNumber",
        LexFault::SourceTooLong => "Lex.SourceTooLong",
        LexFault::Memory => return Err(Stop::Memory),
    };
    let place = fault.place().ok_or(Stop::Memory)?;
    Ok(Refusal { kind, place })
}

fn syntactic(fault: ParseFault) -> Result<Refusal, Stop> {
    match fault {
        ParseFault::TooDeep(place) => Ok(Refusal {
            kind: "Parse.TooDeep",
            place,
        }),
        ParseFault::Syntax(place) => Ok(Refusal {
            kind: "Parse.Syntax",
            place,
        }),
        ParseFault::Memory => Err(Stop::Memory),
    }
}

fn refusal_of(alloc: Global, source: &[u8]) -> Result<Option<Refusal>, Stop> {
    let tokens = match lex(alloc, source) {
        Ok(tokens) => tokens,
        Err(fault) => return Ok(Some(lexical(fault)?)),
    };
    let tree = match parse(alloc, tokens.as_slice()) {
        Ok(tree) => tree,
        Err(fault) => return Ok(Some(syntactic(fault)?)),
    };
    match resolve(alloc, &tree) {
        Ok(_) => Ok(None),
        Err(fault) => {
            let (kind, place) = kind_and_place(fault)?;
            let place = place.start;
            Ok(Some(Refusal { kind, place }))
        }
    }
}

// The line and the column of a place. A source that is too long is refused at its first byte.
fn line_and_column(alloc: Global, source: &[u8], place: u32) -> Result<(u32, u32), Stop> {
    if source.len() > MOST_BYTES || place as usize > MOST_BYTES {
        return Ok((1, 1));
    }
    let starts = line_starts(alloc, source)?;
    Ok(line_column(&starts, place))
}

/// `ok`, or `refused 0`, the kind of the fault, and its line and column.
pub(crate) fn front(alloc: Global, source: &[u8]) -> Result<String, Stop> {
    match refusal_of(alloc, source)? {
        None => Ok(String::from_str(alloc, "ok\n")?),
        Some(refusal) => {
            let kind = refusal.kind;
            let (line, column) = line_and_column(alloc, source, refusal.place)?;
            Ok(format!(in alloc; "refused 0 {kind} {line}:{column}\n")?)
        }
    }
}

/// `ok`, or the kind of the fault.
pub(crate) fn front_kind(alloc: Global, source: &[u8]) -> Result<String, Stop> {
    let kind = match refusal_of(alloc, source)? {
        None => "ok",
        Some(refusal) => refusal.kind,
    };
    Ok(format!(in alloc; "{kind}\n")?)
}

/// The line and the column of each byte of a text, and of its end.
pub(crate) fn columns(alloc: Global, text: &[u8]) -> Result<String, Stop> {
    let mut out = String::new(alloc);
    for place in 0..=text.len() {
        let place = u32::try_from(place).map_err(|_| Stop::Usage)?;
        let (line, column) = line_and_column(alloc, text, place)?;
        out.push_str(format!(in alloc; "{line}:{column} ")?.as_str())?;
    }
    out.push('\n')?;
    Ok(out)
}
