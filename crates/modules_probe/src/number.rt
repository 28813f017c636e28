//! Numbers as words.
use probe_base::{Stop, text_of};

/// The number that the word is, in decimal digits or, behind `0x`, in hexadecimal ones.
pub(crate) fn number_of(word: &[u8]) -> Result<u64, Stop> {
    match word {
        [b'0', b'x', digits @ ..] => {
            u64::from_str_radix(text_of(digits)?, 16).map_err(|_| Stop::Usage)
        }
        _ => probe_base::number_of(word),
    }
}

/// The same below 2^32.
pub(crate) fn short_number_of(word: &[u8]) -> Result<u32, Stop> {
    u32::try_from(number_of(word)?).map_err(|_| Stop::Usage)
}
