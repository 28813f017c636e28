//! Whole headers.
ghost use Rattle.std.specs.Prelude.{◌≡◌, ℕ, List, ◌++◌, IfOk, length};
ghost use Rattle.mo_types.specs.declared.wire.Wire.{Wire};
ghost use Rattle.mo_types.specs.declared.wire.TableRef.{TableRef};
ghost use Rattle.exact_reading.specs.Reading.{Tells, Gives};
ghost use Rattle.candid_header.specs.Header.{magic_at, header_at, Reads, Finds};

use crate::fault::{Fault, Stop};
use crate::list::read_refs;
use crate::table::read_table;
use mo_num::Sequence;
use mo_types::{TableRef, Wire};
use std::alloc::Global;

/// The header of a message.
#[derive(Drop)]
pub struct Header {
    /// The table of types, of at most 4,096 entries.
    pub table: Sequence<Wire<TableRef>>,
    /// The types of the values.
    pub arguments: Sequence<TableRef>,
}

/// What comes after the first four bytes, `DIDL`. Fewer that begin so are short.
fn after_magic(bytes: &[u8]) -> Result<&[u8], Fault>
    ensures { Tells (λ x. x.now) result (magic_at bytes.now) }
{
    match bytes {
        [0x44, 0x49, 0x44, 0x4c, rest @ ..] => Ok(rest),
        [] | [0x44] | [0x44, 0x49] | [0x44, 0x49, 0x44] => Err(Fault::Short),
        _ => Err(Fault::NotDidl),
    }
}

#[tactic(auto, unfolding(crate::specs::Header::header_at))]
fn read(alloc: Global, bytes: &[u8]) -> Result<(Header, &[u8]), Stop>
    ensures { Gives (λ x. (x.0, x.1.now)) result (header_at bytes.now) }
{
    let rest = after_magic(bytes)?;
    let (table, rest) = read_table(alloc, rest)?;
    let (arguments, rest) = read_refs(alloc, table.len() as u32, rest)?;
    Ok((Header { table, arguments }, rest))
}

/// The header at the front of the bytes, and what comes after it. Numbers may be padded, up to the length that their
/// width needs. A fault is that of the first place in reading order that breaks a rule; whether the methods of services
/// are functions is known where the table ends.
pub fn read_header(alloc: Global, bytes: &[u8]) -> Result<(Header, &[u8]), Stop>
    // What is read is a header of a table that is well formed.
    ensures found { IfOk result (λ x. Reads x.0 bytes.now x.1.now) }
    // Each such header is read, whatever follows it, unless memory runs out.
    ensures only { (header : Header) (rest : List ℕ) → Reads header bytes.now rest → Finds (λ x. (x.0, x.1.now)) result header rest }
    // The first fault in reading order, and no other.
    ensures fault { Gives (λ x. (x.0, x.1.now)) result (header_at bytes.now) }
{
    read(alloc, bytes)
}
