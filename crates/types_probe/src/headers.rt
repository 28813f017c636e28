//! Headers of Candid messages.
use crate::types::types_of;
use candid_equal::has_types;
use candid_header::{Stop as WireFault, read_header};
use candid_write::type_table;
use mo_num::Bytes;
use probe_base::{Stop, bytes_of, hex_line, yes_or_no};
use std::alloc::Global;

/// The line of a fault of a message.
pub(crate) fn fault_line(alloc: Global, fault: WireFault) -> Result<String, Stop> {
    match fault {
        WireFault::Memory => Err(Stop::Memory),
        WireFault::Fault(fault) => Ok(format!(in alloc; "{fault:?}\n")?),
    }
}

/// DEFINITIONS TYPES: the header of the types.
pub(crate) fn write(alloc: Global, words: &[Bytes]) -> Result<String, Stop> {
    let [definitions, written] = words else {
        return Err(Stop::Usage);
    };
    let (types, ids) = types_of(alloc, definitions, written)?;
    hex_line(
        alloc,
        type_table(alloc, &types.graph, ids.as_slice())?.as_slice(),
    )
}

/// BYTES: how many entries and arguments the header of a message has, and how many bytes are left; or the fault.
pub(crate) fn read(alloc: Global, words: &[Bytes]) -> Result<String, Stop> {
    let [digits] = words else {
        return Err(Stop::Usage);
    };
    let bytes = bytes_of(alloc, digits.as_slice())?;
    match read_header(alloc, bytes.as_slice()) {
        Ok((header, rest)) => {
            let entries = header.table.len();
            let arguments = header.arguments.len();
            let left = rest.len();
            Ok(format!(in alloc; "{entries} {arguments} {left}\n")?)
        }
        Err(fault) => fault_line(alloc, fault),
    }
}

/// DEFINITIONS TYPES BYTES: `yes` where the types of the header of a message are equal to these, or the fault of the header.
pub(crate) fn are_equal(alloc: Global, words: &[Bytes]) -> Result<String, Stop> {
    let [definitions, written, digits] = words else {
        return Err(Stop::Usage);
    };
    let (types, ids) = types_of(alloc, definitions, written)?;
    let bytes = bytes_of(alloc, digits.as_slice())?;
    match read_header(alloc, bytes.as_slice()) {
        Ok((header, _)) => yes_or_no(
            alloc,
            has_types(alloc, &header, &types.graph, ids.as_slice())?,
        ),
        Err(fault) => fault_line(alloc, fault),
    }
}
