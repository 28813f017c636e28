//! Words as numbers and bytes, and bytes as words and text.
ghost use Rattle.std.specs.Prelude.{◌≡◌, ◌∷◌, ◌++◌, [], Ok, Err, IfOk, IsErr, codes, if◌then◌else◌};
ghost use Rattle.std.specs.String.{string_bytes};
ghost use Rattle.hex.specs.Hex.{decode_of, encode_lower};
ghost use Rattle.probe_base.specs.declared.stop.Stop.{Stop};

use crate::stop::Stop;
use mo_num::Bytes;
use std::alloc::{AllocError, Global};
use std::str;
use std::str::FromStr;

/// The text of bytes.
pub fn text_of(bytes: &[u8]) -> Result<&str, Stop> {
    str::from_utf8(bytes).map_err(|_| Stop::Usage)
}

/// The number of decimal digits.
pub fn number_of<N: FromStr>(word: &[u8]) -> Result<N, Stop>
where
    N::Err: Drop,
{
    text_of(word)?.parse::<N>().map_err(|_| Stop::Usage)
}

/// The bytes of hexadecimal digits.
pub fn bytes_of(alloc: Global, digits: &[u8]) -> Result<Bytes, Stop>
    ensures value { IfOk result (λ bytes. decode_of digits.now ≡ Ok bytes) }
    ensures usage { result ≡ Err Stop.Usage → IsErr (decode_of digits.now) }
{
    match hex::decode(alloc, digits) {
        Ok(list) => Ok(Bytes::from_vec(list)),
        Err(hex::FromHexError::OutOfMemory) => Err(Stop::Memory),
        Err(_) => Err(Stop::Usage),
    }
}

/// A line of the hexadecimal digits of bytes.
pub fn hex_line(alloc: Global, bytes: &[u8]) -> Result<String, Stop>
    ensures { IfOk result (λ line. string_bytes line ≡ encode_lower bytes.now ++ 10 ∷ []) }
{
    let mut out = hex::encode(alloc, bytes)?;
    out.push('\n')?;
    Ok(out)
}

/// The line `yes` or `no`.
pub fn yes_or_no(alloc: Global, answer: bool) -> Result<String, Stop>
    ensures { IfOk result (λ line. string_bytes line ≡ (if answer then codes "yes\n" else codes "no\n")) }
{
    Ok(String::from_str(alloc, if answer { "yes\n" } else { "no\n" })?)
}

/// Adds the bytes, those that are not ASCII as numbers.
pub fn put_text(alloc: Global, out: &mut String, bytes: &[u8]) -> Result<(), AllocError> {
    for byte in bytes {
        if byte.is_ascii() {
            out.push(*byte as char)?;
        } else {
            out.push_str(format!(in alloc; "<{byte}>")?.as_str())?;
        }
    }
    Ok(())
}
