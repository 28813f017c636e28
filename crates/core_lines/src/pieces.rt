//! Pieces of lines.
use mo_num::{Bytes, Memory};
use mo_types::TypeId;
use play_script::put_decimal;
use std::alloc::Global;

/// What stands between parts, before the one with this number.
pub(crate) fn put_comma(number: usize, out: &mut Bytes) -> Result<(), Memory> {
    if number == 0 {
        return Ok(());
    }
    out.extend(b",")
}

/// A word.
pub(crate) fn put_word(word: &[u8], out: &mut Bytes) -> Result<(), Memory> {
    out.extend(b"\"")?;
    out.extend(word)?;
    out.extend(b"\"")
}

/// Bytes in hexadecimal digits.
pub(crate) fn put_text(alloc: Global, bytes: &[u8], out: &mut Bytes) -> Result<(), Memory> {
    let digits = hex::encode(alloc, bytes)?;
    put_word(digits.as_bytes(), out)
}

/// The beginning of an array, up to its next part.
pub(crate) fn put_kind(word: &[u8], out: &mut Bytes) -> Result<(), Memory> {
    out.extend(b"[")?;
    put_word(word, out)?;
    out.extend(b",")
}

/// Its kind alone.
pub(crate) fn put_bare(word: &[u8], out: &mut Bytes) -> Result<(), Memory> {
    out.extend(b"[")?;
    put_word(word, out)?;
    out.extend(b"]")
}

/// Its kind and a number.
pub(crate) fn put_numbered(word: &[u8], number: u32, out: &mut Bytes) -> Result<(), Memory> {
    put_kind(word, out)?;
    put_decimal(number as u64, out)?;
    out.extend(b"]")
}

/// Its kind and a further word.
pub(crate) fn put_worded(word: &[u8], other: &[u8], out: &mut Bytes) -> Result<(), Memory> {
    put_kind(word, out)?;
    put_word(other, out)?;
    out.extend(b"]")
}

/// Its kind and bytes.
pub(crate) fn put_texted(
    alloc: Global,
    word: &[u8],
    bytes: &[u8],
    out: &mut Bytes,
) -> Result<(), Memory> {
    put_kind(word, out)?;
    put_text(alloc, bytes, out)?;
    out.extend(b"]")
}

/// Whether.
pub(crate) fn put_flag(flag: bool, out: &mut Bytes) -> Result<(), Memory> {
    if flag {
        out.extend(b"true")
    } else {
        out.extend(b"false")
    }
}

/// A type.
pub(crate) fn put_type(id: TypeId, out: &mut Bytes) -> Result<(), Memory> {
    put_decimal(id.index() as u64, out)
}

/// Types.
pub(crate) fn put_types(ids: &[TypeId], out: &mut Bytes) -> Result<(), Memory> {
    out.extend(b"[")?;
    for (number, id) in ids.iter().enumerate() {
        put_comma(number, out)?;
        put_type(*id, out)?;
    }
    out.extend(b"]")
}

/// Names.
pub(crate) fn put_names(alloc: Global, names: &[Bytes], out: &mut Bytes) -> Result<(), Memory> {
    out.extend(b"[")?;
    for (number, name) in names.iter().enumerate() {
        put_comma(number, out)?;
        put_text(alloc, name.as_slice(), out)?;
    }
    out.extend(b"]")
}
