//! Sections (WebAssembly Core 1.0, section 5.5.2).
ghost use Rattle.std.specs.Prelude.{◌≡◌, length};
ghost use Rattle.exact_reading.specs.Reading.{Tells, Gives};
ghost use Rattle.wasm_read.specs.Sections.{customs, skip_at, skip_by, seen_one, after_custom, seen, finished, opened, opened_by, vectors_at, start_at, code_section_at, ends};

use crate::code::read_codes;
use crate::fault::Fault;
use crate::number::{name_slice, read_slice, read_u32};
use crate::vector::{Item, read_vector};
use exact_reading::Stop;
use mo_num::Sequence;
use std::alloc::Global;
use wasm_tree::Function;

/// What comes after the custom sections at the front.
fn skip_customs(bytes: &[u8]) -> Result<&[u8], Fault>
    ensures { Tells (λ x. x.now) result (customs bytes.now) }
{
    let mut rest = bytes;
    for _ in 0..bytes.len() {
        match skip_one(rest) {
            Ok(Some(left)) => rest = left,
            Ok(None) => return Ok(rest),
            Err(fault) => return Err(fault),
        }
    }
    Ok(rest)
}

/// What comes after the custom section at the front, if there is one.
fn skip_one(bytes: &[u8]) -> Result<Option<&[u8]>, Fault>
    ensures { Tells (λ o. seen_one o) result (skip_at bytes.now) }
{
    match bytes {
        [] => Ok(None),
        [byte, rest @ ..] => skip_by_number(*byte, rest),
    }
}

fn skip_by_number(byte: u8, rest: &[u8]) -> Result<Option<&[u8]>, Fault>
    ensures { Tells (λ o. seen_one o) result (skip_by byte rest.now) }
{
    if byte != 0 {
        return Ok(None);
    }
    match skip_custom(rest) {
        Ok(left) => Ok(Some(left)),
        Err(fault) => Err(fault),
    }
}

/// What comes after the custom section of which only the number was read.
fn skip_custom(bytes: &[u8]) -> Result<&[u8], Fault>
    ensures { Tells (λ x. x.now) result (after_custom bytes.now) }
{
    let (contents, rest) = read_slice(bytes)?;
    name_slice(contents)?;
    Ok(rest)
}

/// The contents of the section with this number, if it stands at the front, and what comes after it.
#[tactic(auto, unfolding(crate::specs::Sections::opened))]
fn open(number: u8, bytes: &[u8]) -> Result<Option<(&[u8], &[u8])>, Fault>
    ensures { Tells (λ o. seen o) result (opened number bytes.now) }
{
    match bytes {
        [] => Ok(None),
        [byte, rest @ ..] => open_by(number, *byte, rest),
    }
}

fn open_by(number: u8, byte: u8, rest: &[u8]) -> Result<Option<(&[u8], &[u8])>, Fault>
    ensures { Tells (λ o. seen o) result (opened_by number byte rest.now) }
{
    if byte != number {
        return Ok(None);
    }
    match read_slice(rest) {
        Ok((contents, after)) => Ok(Some((contents, after))),
        Err(fault) => Err(fault),
    }
}

/// Nothing is left.
fn finish(rest: &[u8]) -> Result<(), Fault>
    ensures { Tells (λ x. x) result (finished rest.now) }
{
    if rest.len() != 0 {
        return Err(Fault::Malformed);
    }
    Ok(())
}

/// The vector of the section with this number behind custom sections, of no items where the section is left out.
pub fn read_section<T: Drop, I: Item<T>>(
    alloc: Global,
    number: u8,
    bytes: &[u8],
) -> Result<(Sequence<T>, &[u8]), Stop<Fault>>
    ensures { Gives (λ x. (x.0, x.1.now)) result (vectors_at number I.at bytes.now) }
{
    let rest = skip_customs(bytes)?;
    match open(number, rest)? {
        None => Ok((Sequence::new(alloc), rest)),
        Some((contents, after)) => {
            let (items, left) = read_vector::<T, I>(alloc, contents)?;
            finish(left)?;
            Ok((items, after))
        }
    }
}

/// The start function behind custom sections, if there is one.
#[tactic(auto, unfolding(crate::specs::Sections::start_at))]
pub fn read_start(bytes: &[u8]) -> Result<(Option<u32>, &[u8]), Fault>
    ensures { Tells (λ x. (x.0, x.1.now)) result (start_at bytes.now) }
{
    let rest = skip_customs(bytes)?;
    match open(8, rest)? {
        None => Ok((None, rest)),
        Some((contents, after)) => {
            let (function, left) = read_u32(contents)?;
            finish(left)?;
            Ok((Some(function), after))
        }
    }
}

/// The functions with these types behind custom sections.
#[tactic(auto, unfolding(crate::specs::Sections::code_section_at))]
pub fn read_code_section<'a>(
    alloc: Global,
    signatures: &[u32],
    bytes: &'a [u8],
) -> Result<(Sequence<Function>, &'a [u8]), Stop<Fault>>
    ensures { Gives (λ x. (x.0, x.1.now)) result (code_section_at signatures.now bytes.now) }
{
    let rest = skip_customs(bytes)?;
    match open(10, rest)? {
        None => {
            if signatures.len() != 0 {
                return Err(Stop::Fault(Fault::Malformed));
            }
            Ok((Sequence::new(alloc), rest))
        }
        Some((contents, after)) => {
            let (functions, left) = read_codes(alloc, signatures, contents)?;
            finish(left)?;
            Ok((functions, after))
        }
    }
}

/// Nothing but custom sections is left.
#[tactic(auto, unfolding(crate::specs::Sections::ends))]
pub fn read_end(bytes: &[u8]) -> Result<(), Fault>
    ensures { Tells (λ x. x) result (ends bytes.now) }
{
    finish(skip_customs(bytes)?)
}
