//! A line, and a mark below it.
ghost use Rattle.std.specs.Prelude.{◌≡◌, ◌≢◌, ◌≤◌, ◌<◌, ◌⊎◌, ◌++◌, ℕ, IfOk, OnOk, Some, length, map, min, slice_get};
ghost use Rattle.std.specs.List.{flat_map};
ghost use Rattle.marked_lines.specs.Marks.{IsFirst, IsFrom, IsLast, IsMarked, IsTo, cut, is_inner, pad, plain};

use mo_num::{Bytes, Memory};
use std::alloc::Global;

const NEWLINE: u8 = 10;

// So many bytes of a line are shown at most on each side of the place.
const MOST_BESIDE: usize = 100;

// Where the line begins on which the place is.
fn first_of(source: &[u8], place: usize) -> usize
    requires { place ≤ length source.now }
    ensures { IsFirst source.now place result }
{
    let mut first = place;
    while first > 0 && source[first - 1] != NEWLINE {
        first -= 1;
    }
    first
}

// Where the line ends on which the place is.
fn last_of(source: &[u8], place: usize) -> usize
    requires { place ≤ length source.now }
    ensures { IsLast source.now place result }
{
    let mut last = place;
    while last < source.len() && source[last] != NEWLINE {
        last += 1;
    }
    last
}

// Whether a byte is within a character, but not its first.
fn is_inner(byte: u8) -> bool
    ensures { result ≡ is_inner byte }
{
    byte >= 128 && byte < 192
}

// Where the part of the line begins that is shown.
fn from_of(source: &[u8], first: usize, place: usize) -> usize
    requires before { first ≤ place }
    requires within { place ≤ length source.now }
    ensures { IsFrom source.now first place result }
{
    if place - first <= MOST_BESIDE {
        return first;
    }
    let mut from = place - MOST_BESIDE;
    while from < place && is_inner(source[from]) {
        from += 1;
    }
    from
}

// Where it ends.
fn to_of(source: &[u8], place: usize, last: usize) -> usize
    requires behind { place ≤ last }
    requires within { last ≤ length source.now }
    ensures { IsTo source.now place last result }
{
    if last - place <= MOST_BESIDE {
        return last;
    }
    let mut to = place + MOST_BESIDE;
    while to > place && is_inner(source[to]) {
        to -= 1;
    }
    to
}

// Adds the text where a part is left out.
fn put_cut(from: usize, to: usize, text: &[u8], out: &mut Bytes) -> Result<(), Memory>
    ensures { OnOk result (out.new ≡ out.old ++ cut from to text.now) }
{
    if from == to {
        return Ok(());
    }
    out.extend(text)
}

// What is shown of a byte: a control character might change what a terminal does.
#[tactic(auto, unfolding(crate::specs::Marks::plain))]
fn plain(byte: u8) -> u8
    ensures { result ≡ plain byte }
{
    if byte == b'\t' || (byte >= 32 && byte != 127) {
        byte
    } else {
        b' '
    }
}

fn put_plain(part: &[u8], out: &mut Bytes) -> Result<(), Memory>
    ensures { OnOk result (out.new ≡ out.old ++ map plain part.now) }
{
    for byte in part {
        out.push(plain(*byte))?;
    }
    Ok(())
}

// What stands below a byte in front of the mark: a tab below a tab, and one blank for all bytes of a character.
#[tactic(auto, unfolding(crate::specs::Marks::pad))]
fn put_pad(byte: u8, out: &mut Bytes) -> Result<(), Memory>
    ensures { OnOk result (out.new ≡ out.old ++ pad byte) }
{
    if byte == b'\t' {
        return out.push(b'\t');
    }
    if byte < 128 || byte >= 192 {
        return out.push(b' ');
    }
    Ok(())
}

fn put_pads(front: &[u8], out: &mut Bytes) -> Result<(), Memory>
    ensures { OnOk result (out.new ≡ out.old ++ flat_map pad front.now) }
{
    for byte in front {
        put_pad(*byte, out)?;
    }
    Ok(())
}

/// The line on which the place is, and a line below it with a mark `^` under the place. Of a line that is longer `...` stands for what is
/// further than 100 bytes from the place. A place behind the end is taken as the end.
pub fn marked_line(alloc: Global, source: &[u8], place: usize) -> Result<Bytes, Memory>
    ensures { IfOk result (IsMarked source.now (min place (length source.now))) }
{
    let place = if place < source.len() {
        place
    } else {
        source.len()
    };
    let first = first_of(source, place);
    let last = last_of(source, place);
    let from = from_of(source, first, place);
    let to = to_of(source, place, last);
    let mut out = Bytes::new(alloc);
    put_cut(first, from, b"...", &mut out)?;
    put_plain(&source[from..to], &mut out)?;
    put_cut(to, last, b"...", &mut out)?;
    out.push(NEWLINE)?;
    put_cut(first, from, b"   ", &mut out)?;
    put_pads(&source[from..place], &mut out)?;
    out.push(b'^')?;
    out.push(NEWLINE)?;
    Ok(out)
}
