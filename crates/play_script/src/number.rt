//! Numbers and bytes as words of a line.
ghost use Rattle.std.specs.Prelude.{◌≡◌, ◌++◌, ◌∷◌, ◌<◌, [], List, ℕ, OnOk};
ghost use Rattle.play_script.specs.Numbers.{IsDecimal, hex_text, bytes_text};

use mo_num::{Bytes, Memory};
use std::alloc::Global;

/// Adds the number in decimal digits. After an error some may stand.
pub fn put_decimal(value: u64, out: &mut Bytes) -> Result<(), Memory>
    ensures { OnOk result ((digits : List ℕ) × IsDecimal digits value × (out.new ≡ out.old ++ digits)) }
{
    if value < 10 {
        return out.push(b'0' + value as u8);
    }
    put_decimal(value / 10, out)?;
    out.push(b'0' + (value % 10) as u8)
}

/// Adds the bytes in hexadecimal, or a dash for none. After an error some may stand.
pub fn put_bytes(alloc: Global, bytes: &[u8], out: &mut Bytes) -> Result<(), Memory>
    ensures { OnOk result (out.new ≡ out.old ++ bytes_text bytes.now) }
{
    if bytes.is_empty() {
        return out.push(b'-');
    }
    put_hex(alloc, bytes, out)
}

fn put_hex(alloc: Global, bytes: &[u8], out: &mut Bytes) -> Result<(), Memory>
    ensures { OnOk result (out.new ≡ out.old ++ hex_text bytes.now) }
{
    let text = hex::encode(alloc, bytes)?;
    out.extend(text.as_bytes())
}
