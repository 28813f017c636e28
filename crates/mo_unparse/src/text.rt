//! Texts.
ghost use Rattle.std.specs.Prelude.{◌≡◌, ◌++◌, ◌∷◌, [], OnOk};
ghost use Rattle.std.specs.List.{flat_map};
ghost use Rattle.mo_unparse.specs.Spelling as spec;

use crate::numeral::digit_byte;
use mo_num::{Bytes, Memory};

/// Adds a text of these bytes.
pub fn put_text(out: &mut Bytes, text: &[u8]) -> Result<(), Memory>
    ensures { OnOk result (spec.AddsText text.now out.old out.new) }
{
    out.push(b'"')?;
    put_items(out, text)?;
    out.push(b'"')
}

fn put_items(out: &mut Bytes, text: &[u8]) -> Result<(), Memory>
    ensures { OnOk result (out.new ≡ out.old ++ flat_map spec.shown text.now) }
{
    for byte in text {
        put_byte(out, *byte)?;
    }
    Ok(())
}

#[tactic(auto, unfolding(crate::specs::Spelling::shown))]
// A byte that is no visible ASCII character is an escape of one byte.
fn put_byte(out: &mut Bytes, byte: u8) -> Result<(), Memory>
    ensures { OnOk result (out.new ≡ out.old ++ spec.shown byte) }
{
    if is_shown(byte) {
        return out.push(byte);
    }
    out.push(b'\\')?;
    out.push(digit_byte(byte / 16))?;
    out.push(digit_byte(byte % 16))
}

fn is_shown(byte: u8) -> bool
    ensures { result ≡ spec.is_shown byte }
{
    byte < 127 && byte >= 32 && byte != b'"' && byte != b'\\'
}
