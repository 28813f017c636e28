//! LEB128 numbers.
use mo_num::{Bytes, LebFault, leb_read, leb_write, sleb_read, sleb_write};
use probe_base::{Stop, bytes_of, hex_line, number_of};
use std::alloc::Global;

/// NUMBER: the bytes of a number without a sign.
pub(crate) fn write_unsigned(alloc: Global, words: &[Bytes]) -> Result<String, Stop> {
    let [number] = words else {
        return Err(Stop::Usage);
    };
    let mut out = Bytes::new(alloc);
    leb_write(number_of(number.as_slice())?, &mut out)?;
    hex_line(alloc, out.as_slice())
}

/// NUMBER: the bytes of a number with a sign.
pub(crate) fn write_signed(alloc: Global, words: &[Bytes]) -> Result<String, Stop> {
    let [number] = words else {
        return Err(Stop::Usage);
    };
    let mut out = Bytes::new(alloc);
    sleb_write(number_of(number.as_slice())?, &mut out)?;
    hex_line(alloc, out.as_slice())
}

fn fault_line(alloc: Global, fault: LebFault) -> Result<String, Stop> {
    Ok(format!(in alloc; "{fault:?}\n")?)
}

fn width_of(bits: &Bytes) -> Result<u32, Stop> {
    number_of(bits.as_slice())
}

/// BITS BYTES: the number of so many bits without a sign and how many bytes it takes, or the fault.
pub(crate) fn read_unsigned(alloc: Global, words: &[Bytes]) -> Result<String, Stop> {
    let [bits, digits] = words else {
        return Err(Stop::Usage);
    };
    let bytes = bytes_of(alloc, digits.as_slice())?;
    let bits = width_of(bits)?;
    if bits < 1 || bits > 128 {
        return Err(Stop::Usage);
    }
    match leb_read(bytes.as_slice(), bits) {
        Ok((number, count)) => Ok(format!(in alloc; "{number} {count}\n")?),
        Err(fault) => fault_line(alloc, fault),
    }
}

/// BITS BYTES: the number of so many bits with a sign and how many bytes it takes, or the fault.
pub(crate) fn read_signed(alloc: Global, words: &[Bytes]) -> Result<String, Stop> {
    let [bits, digits] = words else {
        return Err(Stop::Usage);
    };
    let bytes = bytes_of(alloc, digits.as_slice())?;
    let bits = width_of(bits)?;
    if bits < 1 || bits > 128 {
        return Err(Stop::Usage);
    }
    match sleb_read(bytes.as_slice(), bits) {
        Ok((number, count)) => Ok(format!(in alloc; "{number} {count}\n")?),
        Err(fault) => fault_line(alloc, fault),
    }
}
