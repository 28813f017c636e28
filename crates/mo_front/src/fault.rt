//! Why a source is not accepted.
ghost use Rattle.std.specs.Prelude.{◌≡◌};
ghost use Rattle.mo_front.specs.FaultNames.{group_of, lex_name, name_name, name_of, parse_name};
ghost use Rattle.mo_front.specs.Places.{lex_place, name_place, parse_place, place_of};

use mo_check::condition_name;
use mo_lexer::LexFault;
use mo_names::NameFault;
use mo_parser::ParseFault;
use thiserror::Error;
use typing_rules::Condition;

/// Why a source is not accepted: the layer that refuses it, and the layer's fault. Places are in bytes, and count from 0.
#[derive(Clone, Copy, Debug, PartialEq, Eq, Error)]
pub enum FrontFault {
    /// It has no tokens.
    #[error("{0}")]
    Lex(LexFault),
    /// Its tokens have no tree.
    #[error("{0}")]
    Parse(ParseFault),
    /// The names in its tree are not bound.
    #[error("{0}")]
    Name(NameFault),
    /// Its tree is not typed: this condition is false at the node that begins here.
    #[error("a condition of typing is false at byte {place}")]
    Type { condition: Condition, place: u32 },
    /// There was no memory.
    #[error("there was no memory")]
    Memory,
}

fn lex_place(fault: LexFault) -> u32
    ensures { result ≡ lex_place fault }
{
    match fault {
        LexFault::BadByte(place) => place,
        LexFault::OpenComment(place) => place,
        LexFault::OpenText(place) => place,
        LexFault::BadEscape(place) => place,
        LexFault::WideNumber(place) => place,
        LexFault::SourceTooLong => 0,
        LexFault::Memory => 0,
    }
}

fn parse_place(fault: ParseFault) -> u32
    ensures { result ≡ parse_place fault }
{
    match fault {
        ParseFault::TooDeep(place) => place,
        ParseFault::Syntax(place) => place,
        ParseFault::Memory => 0,
    }
}

fn name_place(fault: NameFault) -> u32
    ensures { result ≡ name_place fault }
{
    match fault {
        NameFault::Unknown(place) => place.start,
        NameFault::Twice(place) => place.start,
        NameFault::UsedBeforeDefined(place) => place.start,
        NameFault::LabelClash(place) => place.start,
        NameFault::Reserved(place) => place.start,
        NameFault::Memory => 0,
    }
}

fn lex_name(fault: LexFault) -> &'static [u8]
    ensures { result.now ≡ lex_name fault }
{
    match fault {
        LexFault::BadByte(_) => b"BadByte",
        LexFault::OpenComment(_) => b"OpenComment",
        LexFault::OpenText(_) => b"OpenText",
        LexFault::BadEscape(_) => b"BadEscape",
        LexFault::WideNumber(_) => b"WideNumber",
        LexFault::SourceTooLong => b"SourceTooLong",
        LexFault::Memory => b"Memory",
    }
}

fn parse_name(fault: ParseFault) -> &'static [u8]
    ensures { result.now ≡ parse_name fault }
{
    match fault {
        ParseFault::TooDeep(_) => b"TooDeep",
        ParseFault::Syntax(_) => b"Syntax",
        ParseFault::Memory => b"Memory",
    }
}

fn name_name(fault: NameFault) -> &'static [u8]
    ensures { result.now ≡ name_name fault }
{
    match fault {
        NameFault::Unknown(_) => b"Unknown",
        NameFault::Twice(_) => b"Twice",
        NameFault::UsedBeforeDefined(_) => b"UsedBeforeDefined",
        NameFault::LabelClash(_) => b"LabelClash",
        NameFault::Reserved(_) => b"Reserved",
        NameFault::Memory => b"Memory",
    }
}

impl FrontFault {
    /// Where the fault is, in bytes from 0. Want of memory, and a source that is too long, are at 0.
    pub fn place(self) -> u32
        ensures { result ≡ place_of self }
    {
        match self {
            FrontFault::Lex(fault) => lex_place(fault),
            FrontFault::Parse(fault) => parse_place(fault),
            FrontFault::Name(fault) => name_place(fault),
            FrontFault::Type { place, .. } => place,
            FrontFault::Memory => 0,
        }
    }

    /// The name of the layer that refuses the source: `Lex`, `Parse`, `Name` or `Type`.
    pub fn group(self) -> &'static [u8]
        ensures { result.now ≡ group_of self }
    {
        match self {
            FrontFault::Lex(_) => b"Lex",
            FrontFault::Parse(_) => b"Parse",
            FrontFault::Name(_) => b"Name",
            FrontFault::Type { .. } => b"Type",
            FrontFault::Memory => b"Memory",
        }
    }

    /// The name of the layer's fault, without its place.
    pub fn name(self) -> &'static [u8]
        ensures { result.now ≡ name_of self }
    {
        match self {
            FrontFault::Lex(fault) => lex_name(fault),
            FrontFault::Parse(fault) => parse_name(fault),
            FrontFault::Name(fault) => name_name(fault),
            FrontFault::Type { condition, .. } => condition_name(condition).as_bytes(),
            FrontFault::Memory => b"Memory",
        }
    }
}
