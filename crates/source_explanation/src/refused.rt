//! Sources that are refused.
ghost use Rattle.std.specs.Prelude.{◌≡◌, IfOk};
ghost use Rattle.source_explanation.specs.Refusals.{IsRefusal, meaning_of, said_of};

use crate::shown::shown;
use fault_meanings::{condition_meaning, lex_meaning, name_meaning, parse_meaning};
use mo_front::FrontFault;
use mo_num::{Bytes, Memory};
use std::alloc::Global;

// What a fault means.
fn meaning(fault: FrontFault) -> &'static [u8]
    ensures { result.now ≡ meaning_of fault }
{
    match fault {
        FrontFault::Lex(fault) => lex_meaning(fault),
        FrontFault::Parse(fault) => parse_meaning(fault),
        FrontFault::Name(fault) => name_meaning(fault),
        FrontFault::Type { condition, .. } => condition_meaning(condition),
        FrontFault::Memory => b"There was no memory.",
    }
}

// The layer that refuses the source, and the name of the fault.
fn said(alloc: Global, fault: FrontFault) -> Result<Bytes, Memory>
    ensures { IfOk result (λ made. made ≡ said_of fault) }
{
    let mut made = Bytes::from_slice(alloc, fault.group())?;
    made.push(b'.')?;
    made.extend(fault.name())?;
    Ok(made)
}

/// The refused line with a mark under the place of the fault, and what the fault means.
pub(crate) fn refusal(alloc: Global, source: &[u8], fault: FrontFault) -> Result<Bytes, Memory>
    ensures { IfOk result (IsRefusal source.now fault) }
{
    let said = said(alloc, fault)?;
    let mut rest = Bytes::from_slice(alloc, meaning(fault))?;
    rest.push(b'\n')?;
    shown(
        alloc,
        source,
        fault.place(),
        said.as_slice(),
        rest.as_slice(),
    )
}
