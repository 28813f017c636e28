//! Texts, Blobs, principals and methods.
ghost use Rattle.std.specs.Prelude.{◌≡◌, ◌&&◌, IfOk, nat_lt, true};
ghost use Rattle.std.specs.List.{list_all};
ghost use Rattle.std.specs.Str.{is_utf8};
ghost use Rattle.mo_types.specs.Values.{is_method_name};
ghost use Rattle.exact_reading.specs.Reading.{Tells, Gives};
ghost use Rattle.candid_read.specs.Whole.{IfFault};
ghost use Rattle.candid_read.specs.Parts.{are_bytes, text_at, blob_at, few_bytes_at, principal_at, method_name_at, method_at};

use crate::flag::read_one;
use candid_header::{Fault, Stop, read_slice, read_u32, split};
use mo_num::{Bytes, Principal, principal_of};
use mo_types::Datum;
use std::alloc::Global;

/// Whether the bytes are UTF-8.
#[tactic(auto, using(crate::proofs::Texts::is_so, crate::proofs::Texts::is_not))]
pub fn is_text(bytes: &[u8]) -> bool
    ensures { result ≡ is_utf8 bytes.now }
{
    match str::from_utf8(bytes) {
        Ok(_) => true,
        Err(_) => false,
    }
}

/// A text, of UTF-8.
#[tactic(auto, unfolding(crate::specs::Parts::text_at))]
pub fn read_text(alloc: Global, bytes: &[u8]) -> Result<(Datum, &[u8]), Stop>
    ensures { Gives (λ x. (x.0, x.1.now)) result (text_at bytes.now) }
{
    let (text, rest) = read_slice(Fault::BadValue, bytes)?;
    if !is_text(text) {
        return Err(Stop::Fault(Fault::BadValue));
    }
    let text = Bytes::from_slice(alloc, text)?;
    Ok((Datum::Text(text), rest))
}

fn copy(alloc: Global, bytes: &[u8]) -> Result<Bytes, Stop>
    ensures made { IfOk result (λ made. made ≡ bytes.now) }
    ensures quiet { IfFault result (λ _. ⊥) }
    ensures bytes { are_bytes bytes.now ≡ true }
{
    Ok(Bytes::from_slice(alloc, bytes)?)
}

/// A Blob, in one string of bytes.
#[tactic(auto, unfolding(crate::specs::Parts::blob_at))]
pub fn read_blob(alloc: Global, bytes: &[u8]) -> Result<(Datum, &[u8]), Stop>
    ensures { Gives (λ x. (x.0, x.1.now)) result (blob_at bytes.now) }
{
    let (blob, rest) = read_slice(Fault::BadValue, bytes)?;
    let blob = copy(alloc, blob)?;
    Ok((Datum::Blob(blob), rest))
}

#[tactic(auto, unfolding(crate::specs::Parts::few_bytes_at))]
fn read_few_bytes(bytes: &[u8]) -> Result<(&[u8], &[u8]), Fault>
    ensures { Tells (λ x. (x.0.now, x.1.now)) result (few_bytes_at bytes.now) }
{
    let (count, rest) = read_u32(Fault::BadValue, bytes)?;
    if count < 30 {
        split(count, rest)
    } else {
        Err(Fault::BadValue)
    }
}

#[tactic(auto, unfolding(crate::specs::Parts::principal_at))]
fn read_principal_bytes(bytes: &[u8]) -> Result<(&[u8], &[u8]), Fault>
    ensures { Tells (λ x. (x.0.now, x.1.now)) result (principal_at bytes.now) }
{
    let (_, rest) = read_one(bytes)?;
    read_few_bytes(rest)
}

/// A principal.
pub fn read_principal(alloc: Global, bytes: &[u8]) -> Result<(Principal, &[u8]), Stop>
    ensures { Gives (λ x. (x.0, x.1.now)) result (principal_at bytes.now) }
{
    let (principal, rest) = read_principal_bytes(bytes)?;
    match principal_of(alloc, principal) {
        Some(principal) => Ok((principal, rest)),
        None => Err(Stop::Memory),
    }
}

fn are_printable(bytes: &[u8]) -> bool
    ensures { result ≡ list_all (λ c. nat_lt 32 c && nat_lt c 127) bytes.now }
{
    bytes.iter().all(|byte| 32 < *byte && *byte < 127)
}

/// Whether the bytes are the name of a method: there are some, and each is from 33 to 126.
pub fn is_name(bytes: &[u8]) -> bool
    ensures { result ≡ is_method_name bytes.now }
{
    !bytes.is_empty() && are_printable(bytes)
}

#[tactic(auto, unfolding(crate::specs::Parts::method_name_at))]
fn read_method_name(bytes: &[u8]) -> Result<(&[u8], &[u8]), Fault>
    ensures { Tells (λ x. (x.0.now, x.1.now)) result (method_name_at bytes.now) }
{
    let (name, rest) = read_slice(Fault::BadValue, bytes)?;
    if is_name(name) {
        Ok((name, rest))
    } else {
        Err(Fault::BadValue)
    }
}

/// A method of an actor: the flag of the method, the actor, and the name.
#[tactic(auto, unfolding(crate::specs::Parts::method_at))]
pub fn read_method(alloc: Global, bytes: &[u8]) -> Result<(Datum, &[u8]), Stop>
    ensures { Gives (λ x. (x.0, x.1.now)) result (method_at bytes.now) }
{
    let (_, rest) = read_one(bytes)?;
    let (actor, rest) = read_principal(alloc, rest)?;
    let (name, rest) = read_method_name(rest)?;
    let name = Bytes::from_slice(alloc, name)?;
    Ok((Datum::Method(actor, name), rest))
}
