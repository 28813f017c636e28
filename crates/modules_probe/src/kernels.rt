//! What the kernels over bytes find in each beginning of a text, the shortest first.
use byte_lanes::{Starts, ascii_prefix, first_difference, line_starts};
use probe_base::Stop;
use std::alloc::{AllocError, Global};

/// The most bytes of a text of lines.
const MOST_BYTES: usize = 1_048_576;

/// The first place at which the beginnings of two equally long texts differ, or none.
pub(crate) fn find_differences(alloc: Global, left: &[u8], right: &[u8]) -> Result<String, Stop> {
    if left.len() != right.len() {
        return Err(Stop::Usage);
    }
    let mut out = String::new(alloc);
    for len in 0..left.len() {
        put_place(
            alloc,
            &mut out,
            first_difference(&left[..len], &right[..len]),
        )?;
    }
    put_place(alloc, &mut out, first_difference(left, right))?;
    Ok(out)
}

fn put_place(alloc: Global, out: &mut String, place: Option<usize>) -> Result<(), AllocError> {
    out.push_str(format!(in alloc; "{place:?}\n")?.as_str())
}

/// How many bytes of ASCII each beginning begins with.
pub(crate) fn find_prefixes(alloc: Global, bytes: &[u8]) -> Result<String, Stop> {
    let mut out = String::new(alloc);
    for len in 0..bytes.len() {
        put_count(alloc, &mut out, ascii_prefix(&bytes[..len]))?;
    }
    put_count(alloc, &mut out, ascii_prefix(bytes))?;
    Ok(out)
}

fn put_count(alloc: Global, out: &mut String, count: usize) -> Result<(), AllocError> {
    out.push_str(format!(in alloc; "{count}\n")?.as_str())
}

/// How many lines each beginning has, and where the last one starts; and then all places of the whole text.
pub(crate) fn find_starts(alloc: Global, bytes: &[u8]) -> Result<String, Stop> {
    let mut out = String::new(alloc);
    for len in 0..bytes.len() {
        let starts = starts_of(alloc, &bytes[..len])?;
        put_last(alloc, &mut out, starts.as_slice())?;
    }
    let starts = starts_of(alloc, bytes)?;
    put_all(alloc, &mut out, starts.as_slice())?;
    Ok(out)
}

fn starts_of(alloc: Global, bytes: &[u8]) -> Result<Starts, Stop> {
    if bytes.len() > MOST_BYTES {
        return Err(Stop::Usage);
    }
    Ok(line_starts(alloc, bytes)?)
}

fn put_last(alloc: Global, out: &mut String, places: &[u32]) -> Result<(), AllocError> {
    let (count, last) = (places.len(), places.last());
    out.push_str(format!(in alloc; "{count} {last:?}\n")?.as_str())
}

fn put_all(alloc: Global, out: &mut String, places: &[u32]) -> Result<(), AllocError> {
    out.push_str(format!(in alloc; "{places:?}\n")?.as_str())
}
