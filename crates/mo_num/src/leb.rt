//! Numbers in base 128, as WebAssembly Core 1.0 section 5.2.2 and the Candid specification write them.
ghost use Rattle.std.specs.Prelude.{◌≡◌, List, ℕ, ◌++◌, pos, ◌+ℤ◌, ◌*ℤ◌, ◌<◌, OnOk, OnErr};
ghost use Rattle.mo_num.specs.Leb.{AppendsLeb, AppendsSleb};

use crate::{Bytes, Memory};

/// Adds the shortest unsigned LEB128 spelling of the value. After an error the bytes are unchanged.
pub fn leb_write(value: u128, out: &mut Bytes) -> Result<(), Memory>
    ensures ok { OnOk result (AppendsLeb out.old out.new value) }
    ensures err { OnErr result (out.new ≡ out.old) }
{
    let before = out.len();
    match put_leb(value, out) {
        Ok(()) => Ok(()),
        Err(fault) => {
            out.truncate(before);
            Err(fault)
        }
    }
}

/// Adds the shortest signed LEB128 spelling of the value. After an error the bytes are unchanged.
pub fn sleb_write(value: i128, out: &mut Bytes) -> Result<(), Memory>
    ensures ok { OnOk result (AppendsSleb out.old out.new value) }
    ensures err { OnErr result (out.new ≡ out.old) }
{
    let before = out.len();
    match put_sleb(value, out) {
        Ok(()) => Ok(()),
        Err(fault) => {
            out.truncate(before);
            Err(fault)
        }
    }
}

// The digits from the lowest on, at most 19 of them. After an error some may stand.
fn put_leb(value: u128, out: &mut Bytes) -> Result<(), Memory>
    ensures ok { OnOk result (AppendsLeb out.old out.new value) }
    ensures err { OnErr result ((more : List ℕ) × (out.new ≡ out.old ++ more)) }
{
    if value < 128 {
        return out.push(value as u8);
    }
    out.push((value % 128) as u8 + 128)?;
    put_leb(value / 128, out)
}

fn put_sleb(value: i128, out: &mut Bytes) -> Result<(), Memory>
    ensures ok { OnOk result (AppendsSleb out.old out.new value) }
    ensures err { OnErr result ((more : List ℕ) × (out.new ≡ out.old ++ more)) }
{
    if -64 <= value && value < 0 {
        return out.push((value + 128) as u8);
    }
    if 0 <= value && value < 64 {
        return out.push(value as u8);
    }
    let (digit, rest) = low_digit(value);
    out.push(digit + 128)?;
    put_sleb(rest, out)
}

// The lowest seven bits, and the number that stands before them.
fn low_digit(value: i128) -> (u8, i128)
    ensures digit { result.0 < 128 }
    ensures whole { value ≡ pos result.0 +ℤ (pos 128 *ℤ result.1) }
{
    (value.rem_euclid(128) as u8, value.div_euclid(128))
}
