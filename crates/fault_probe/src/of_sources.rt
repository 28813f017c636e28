//! Faults of sources, names, types, numbers and values.
use crate::lines;
use candid_encode::Refusal;
use candid_header::{Fault, Stop as WireFault};
use mo_lexer::LexFault;
use mo_names::NameFault;
use mo_num::{LebFault, Memory, NumTrap};
use mo_parser::ParseFault;
use mo_syntax::Place;
use mo_types::TypesFault;
use probe_base::Stop;
use query_source::SourceFault;
use std::alloc::{AllocError, Global};

fn lexical(alloc: Global) -> Result<String, AllocError> {
    lines(
        alloc,
        &[
            LexFault::BadByte(7),
            LexFault::OpenComment(7),
            LexFault::OpenText(7),
            LexFault::BadEscape(7),
            LexFault::WideNumber(7),
            LexFault::SourceTooLong,
            LexFault::Memory,
        ],
    )
}

fn syntactic(alloc: Global) -> Result<String, AllocError> {
    lines(
        alloc,
        &[
            ParseFault::TooDeep(7),
            ParseFault::Syntax(7),
            ParseFault::Memory,
        ],
    )
}

fn of_names(alloc: Global) -> Result<String, AllocError> {
    let place = Place { start: 7, end: 9 };
    lines(
        alloc,
        &[
            NameFault::Unknown(place),
            NameFault::Twice(place),
            NameFault::UsedBeforeDefined(place),
            NameFault::LabelClash(place),
            NameFault::Reserved(place),
            NameFault::Memory,
        ],
    )
}

fn of_arithmetic(alloc: Global) -> Result<String, AllocError> {
    lines(
        alloc,
        &[NumTrap::Overflow, NumTrap::Underflow, NumTrap::DivideByZero],
    )
}

fn of_messages(alloc: Global) -> Result<String, AllocError> {
    lines(
        alloc,
        &[
            WireFault::Memory,
            WireFault::Fault(Fault::NotDidl),
            WireFault::Fault(Fault::BadTable),
            WireFault::Fault(Fault::Short),
            WireFault::Fault(Fault::Trailing),
            WireFault::Fault(Fault::NotSubtype),
            WireFault::Fault(Fault::BadValue),
            WireFault::Fault(Fault::NumberLimit),
            WireFault::Fault(Fault::TooManyEmpty),
        ],
    )
}

/// The messages of a type.
pub(crate) fn messages(alloc: Global, kind: &[u8]) -> Result<String, Stop> {
    let text = match kind {
        b"LexFault" => lexical(alloc)?,
        b"ParseFault" => syntactic(alloc)?,
        b"NameFault" => of_names(alloc)?,
        b"TypesFault" => lines(alloc, &[TypesFault::TooManyTypes, TypesFault::Memory])?,
        b"SourceFault" => lines(alloc, &[SourceFault::NotYet, SourceFault::Memory])?,
        b"NumTrap" => of_arithmetic(alloc)?,
        b"LebFault" => lines(alloc, &[LebFault::Short, LebFault::TooWide])?,
        b"Memory" => lines(alloc, &[Memory])?,
        b"WireFault" => of_messages(alloc)?,
        b"Refusal" => lines(alloc, &[Refusal::OtherValues, Refusal::Memory])?,
        _ => return Err(Stop::Usage),
    };
    Ok(text)
}
