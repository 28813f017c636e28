//! Values as words, one for each part: `null`, `true`, a number, `char:8364`, `text:6869`, `blob:00ff`, `principal:04`,
//! `actor:04`, `method:04:676f`, `some`, `many:2`, `record:2`, `tag:1`. Bytes stand in hexadecimal digits.
use mo_num::{Principal, Sequence, principal_of};
use mo_types::Datum;
use probe_base::{Stop, bytes_of, number_of, text_of};
use std::alloc::{AllocError, Global};

fn principal(alloc: Global, digits: &str) -> Result<Principal, Stop> {
    principal_of(alloc, bytes_of(alloc, digits.as_bytes())?.as_slice()).ok_or(Stop::Usage)
}

fn method(alloc: Global, words: &str) -> Result<Datum, Stop> {
    let (owner, name) = words.split_once(':').ok_or(Stop::Usage)?;
    let name = bytes_of(alloc, name.as_bytes())?;
    Ok(Datum::Method(principal(alloc, owner)?, name))
}

fn with_content(alloc: Global, sort: &str, content: &str) -> Result<Datum, Stop> {
    let bytes = content.as_bytes();
    match sort.as_bytes() {
        b"char" => Ok(Datum::Char(number_of(bytes)?)),
        b"text" => Ok(Datum::Text(bytes_of(alloc, bytes)?)),
        b"blob" => Ok(Datum::Blob(bytes_of(alloc, bytes)?)),
        b"principal" => Ok(Datum::Principal(principal(alloc, content)?)),
        b"actor" => Ok(Datum::Actor(principal(alloc, content)?)),
        b"method" => method(alloc, content),
        b"many" => Ok(Datum::Many(number_of(bytes)?)),
        b"record" => Ok(Datum::Record(number_of(bytes)?)),
        b"tag" => Ok(Datum::Tag(number_of(bytes)?)),
        _ => Err(Stop::Usage),
    }
}

fn datum_of(alloc: Global, word: &str) -> Result<Datum, Stop> {
    match word.as_bytes() {
        b"null" => Ok(Datum::Null),
        b"true" => Ok(Datum::Flag(true)),
        b"false" => Ok(Datum::Flag(false)),
        b"some" => Ok(Datum::Present),
        _ => match word.split_once(':') {
            Some((sort, content)) => with_content(alloc, sort, content),
            None => Ok(Datum::Number(number_of(word.as_bytes())?)),
        },
    }
}

/// The parts that the words say.
pub(crate) fn values_of(alloc: Global, words: &[u8]) -> Result<Sequence<Datum>, Stop> {
    let mut parts = Sequence::new(alloc);
    for word in text_of(words)?.split_ascii_whitespace() {
        parts.push(datum_of(alloc, word)?)?;
    }
    Ok(parts)
}

fn put_hex(alloc: Global, out: &mut String, sort: &str, bytes: &[u8]) -> Result<(), AllocError> {
    out.push_str(sort)?;
    out.push(':')?;
    put_digits(alloc, out, bytes)
}

fn put_digits(alloc: Global, out: &mut String, bytes: &[u8]) -> Result<(), AllocError> {
    out.push_str(hex::encode(alloc, bytes)?.as_str())
}

fn put_method(
    alloc: Global,
    out: &mut String,
    owner: &Principal,
    name: &[u8],
) -> Result<(), AllocError> {
    put_hex(alloc, out, "method", owner.bytes())?;
    out.push(':')?;
    put_digits(alloc, out, name)
}

fn put_part(alloc: Global, out: &mut String, part: &Datum) -> Result<(), AllocError> {
    match part {
        Datum::Null => out.push_str("null"),
        Datum::Flag(flag) => out.push_str(format!(in alloc; "{flag}")?.as_str()),
        Datum::Number(number) => out.push_str(format!(in alloc; "{number}")?.as_str()),
        Datum::Char(scalar) => out.push_str(format!(in alloc; "char:{scalar}")?.as_str()),
        Datum::Text(text) => put_hex(alloc, out, "text", text.as_slice()),
        Datum::Blob(blob) => put_hex(alloc, out, "blob", blob.as_slice()),
        Datum::Principal(owner) => put_hex(alloc, out, "principal", owner.bytes()),
        Datum::Actor(owner) => put_hex(alloc, out, "actor", owner.bytes()),
        Datum::Method(owner, name) => put_method(alloc, out, owner, name.as_slice()),
        Datum::Present => out.push_str("some"),
        Datum::Many(count) => out.push_str(format!(in alloc; "many:{count}")?.as_str()),
        Datum::Record(count) => out.push_str(format!(in alloc; "record:{count}")?.as_str()),
        Datum::Tag(tag) => out.push_str(format!(in alloc; "tag:{tag}")?.as_str()),
    }
}

/// The parts, each behind a blank but the first one, and the end of the line.
pub(crate) fn put_values(
    alloc: Global,
    out: &mut String,
    parts: &[Datum],
) -> Result<(), AllocError> {
    for (place, part) in parts.iter().enumerate() {
        if place != 0 {
            out.push(' ')?;
        }
        put_part(alloc, out, part)?;
    }
    out.push('\n')
}
