//! How far a source is UTF-8.
ghost use Rattle.std.specs.Prelude.{◌≡◌};
ghost use Rattle.mo_lexer.specs.Faults.{IsUtf8Front};

use byte_lanes::ascii_prefix;
use std::str;

/// The longest front of the source that is UTF-8.
pub fn utf8_front(source: &[u8]) -> &str
    ensures { IsUtf8Front source.now result.now }
{
    let ascii = ascii_prefix(source);
    let end = match str::from_utf8(&source[ascii..]) {
        Ok(_) => source.len(),
        Err(error) => ascii + error.valid_up_to(),
    };
    // The bytes up to there are UTF-8, which the proof shows.
    unsafe { str::from_utf8_unchecked(&source[..end]) }
}
