//! Parts without values inside them.
ghost use Rattle.std.specs.Prelude.{◌<◌, ◌↔◌, List, IsTrue, OnOk};
ghost use Rattle.mo_types.specs.declared.node.Field.{Field};
ghost use Rattle.mo_types.specs.declared.node.Node.TheVariants as node;
ghost use Rattle.mo_types.specs.declared.node.TypeId.{TypeId};
ghost use Rattle.mo_types.specs.Sub.{Each};
ghost use Rattle.mo_types.specs.Values.{IsScalar};
ghost use Rattle.mo_types.specs.Spelling.{shortest, IsString};
ghost use Rattle.candid_write.specs.Appends.{Appends};
ghost use Rattle.candid_encode.specs.Puts.{IsMethod, IsMethodSpelled, Puts, PutsPart};

use crate::number::{put_low, put_number};
use crate::reference::{put_method, put_principal};
use crate::refusal::Refusal;
use candid_read::{is_name, is_text};
use candid_write::put_string;
use mo_num::{Bytes, Kind, Memory};
use mo_types::{Datum, Sort};

/// Writes a number of this kind.
pub fn put_kind(kind: Kind, part: &Datum, out: &mut Bytes) -> Result<(), Refusal>
    ensures { PutsPart (node.Number kind) part.now result out.old out.new }
{
    match part {
        Datum::Number(value) => put_number(kind, *value, out),
        _ => Err(Refusal::OtherValues),
    }
}

/// Writes a truth value.
pub fn put_flag(part: &Datum, out: &mut Bytes) -> Result<(), Refusal>
    ensures { PutsPart node.Bool part.now result out.old out.new }
{
    match part {
        Datum::Flag(flag) => {
            out.push(u8::from(*flag))?;
            Ok(())
        }
        _ => Err(Refusal::OtherValues),
    }
}

fn is_scalar(number: u32) -> bool
    ensures { IsTrue result ↔ IsScalar number }
{
    number < 0xd800 || 0xe000 <= number && number < 0x11_0000
}

/// Writes a character as its number in four bytes.
pub fn put_char(part: &Datum, out: &mut Bytes) -> Result<(), Refusal>
    ensures { PutsPart node.Char part.now result out.old out.new }
{
    match part {
        Datum::Char(char) => {
            if !is_scalar(*char) {
                return Err(Refusal::OtherValues);
            }
            put_low(4, u64::from(*char), out)?;
            Ok(())
        }
        _ => Err(Refusal::OtherValues),
    }
}

/// Writes a text.
pub fn put_text(part: &Datum, out: &mut Bytes) -> Result<(), Refusal>
    ensures { PutsPart node.Text part.now result out.old out.new }
{
    match part {
        Datum::Text(text) => {
            if !is_text(text.as_slice()) {
                return Err(Refusal::OtherValues);
            }
            put_string(text.as_slice(), out)?;
            Ok(())
        }
        _ => Err(Refusal::OtherValues),
    }
}

/// Writes bytes, with their count.
fn put_bytes(bytes: &[u8], out: &mut Bytes) -> Result<(), Memory>
    ensures { OnOk result (Appends (λ b. Each (λ c. c < 256) bytes.now × IsString shortest bytes.now b) out.old out.new) }
{
    put_string(bytes, out)
}

/// Writes the bytes of a Blob.
pub fn put_blob(part: &Datum, out: &mut Bytes) -> Result<(), Refusal>
    ensures { PutsPart node.Blob part.now result out.old out.new }
{
    match part {
        Datum::Blob(bytes) => {
            put_bytes(bytes.as_slice(), out)?;
            Ok(())
        }
        _ => Err(Refusal::OtherValues),
    }
}

/// Writes a principal.
pub fn put_plain_principal(part: &Datum, out: &mut Bytes) -> Result<(), Refusal>
    ensures { PutsPart node.Principal part.now result out.old out.new }
{
    match part {
        Datum::Principal(principal) => {
            put_principal(principal, out)?;
            Ok(())
        }
        _ => Err(Refusal::OtherValues),
    }
}

/// Writes an actor as its principal.
pub fn put_actor(part: &Datum, out: &mut Bytes) -> Result<(), Refusal>
    ensures { (methods : List (Field TypeId)) → PutsPart (node.Actor methods) part.now result out.old out.new }
{
    match part {
        Datum::Actor(principal) => {
            put_principal(principal, out)?;
            Ok(())
        }
        _ => Err(Refusal::OtherValues),
    }
}

/// Writes a method of an actor. No value of a type of local functions is known outside.
pub fn put_function(sort: Sort, part: &Datum, out: &mut Bytes) -> Result<(), Refusal>
    ensures { (parameters results : List TypeId) → PutsPart (node.Func sort parameters results) part.now result out.old out.new }
{
    match sort {
        Sort::Local => Err(Refusal::OtherValues),
        Sort::Shared | Sort::Query => put_shared(part, out),
    }
}

fn put_shared(part: &Datum, out: &mut Bytes) -> Result<(), Refusal>
    ensures { Puts (IsMethod part.now) (IsMethodSpelled part.now) result out.old out.new }
{
    match part {
        Datum::Method(actor, name) => {
            if !is_name(name.as_slice()) {
                return Err(Refusal::OtherValues);
            }
            put_method(actor, name.as_slice(), out)?;
            Ok(())
        }
        _ => Err(Refusal::OtherValues),
    }
}
