//! Principals, and lists of bytes.
use mo_num::{Bytes, Principal, Sequence, principal_of, principal_read};
use probe_base::{Stop, bytes_of, hex_line, number_of};
use std::alloc::Global;

// The bytes of a principal and of its copy, or the line `none`.
fn line(alloc: Global, principal: Option<Principal>) -> Result<String, Stop> {
    let Some(principal) = principal else {
        return Ok(String::from_str(alloc, "none\n")?);
    };
    let copy = principal.copy();
    if principal == copy {
        hex_line(alloc, copy.bytes())
    } else {
        Err(Stop::Usage)
    }
}

/// TEXT: the bytes of the principal that has this text.
pub(crate) fn of_text(alloc: Global, words: &[Bytes]) -> Result<String, Stop> {
    let [text] = words else {
        return Err(Stop::Usage);
    };
    line(alloc, principal_read(alloc, text.as_slice()))
}

/// BYTES: the bytes of the principal of these bytes.
pub(crate) fn of_bytes(alloc: Global, words: &[Bytes]) -> Result<String, Stop> {
    let [digits] = words else {
        return Err(Stop::Usage);
    };
    line(
        alloc,
        principal_of(alloc, bytes_of(alloc, digits.as_slice())?.as_slice()),
    )
}

/// BYTES BYTE MORE: the bytes, behind them the byte, and behind it more bytes.
pub(crate) fn grown(alloc: Global, words: &[Bytes]) -> Result<String, Stop> {
    let [first, next, more] = words else {
        return Err(Stop::Usage);
    };
    let mut bytes = Bytes::from_slice(alloc, bytes_of(alloc, first.as_slice())?.as_slice())?;
    bytes.push(number_of(next.as_slice())?)?;
    bytes.extend(bytes_of(alloc, more.as_slice())?.as_slice())?;
    hex_line(alloc, bytes.as_slice())
}

/// NUMBER ..: a list to which these numbers are put one after another.
pub(crate) fn pushed(alloc: Global, numbers: &[Bytes]) -> Result<String, Stop> {
    let mut items: Sequence<u8> = Sequence::new(alloc);
    for number in numbers {
        items.push(number_of(number.as_slice())?)?;
    }
    hex_line(alloc, items.as_slice())
}
