//! Numbers of values.
ghost use Rattle.std.specs.Prelude.{◌≡◌, ◌≤◌, ◌*◌, ◌^◌, OnOk};
ghost use Rattle.mo_num.specs.Kinds.{InRange, modulus};
ghost use Rattle.mo_types.specs.declared.datum.Datum.TheVariants as part;
ghost use Rattle.mo_types.specs.Spelling.{as_bytes, low_first, shortest, IsPlainPart};
ghost use Rattle.mo_types.specs.Wire.{plain_number};
ghost use Rattle.candid_write.specs.Appends.{Appends};
ghost use Rattle.candid_encode.specs.Puts.{Puts};

use crate::refusal::Refusal;
use mo_num::{Bytes, Kind, Memory, leb_write, sleb_write};

/// So many bytes of a number, the lowest first.
#[tactic(auto, using(crate::proofs::Lows::low_none, crate::proofs::Lows::low_more))]
pub fn put_low(width: u32, value: u64, out: &mut Bytes) -> Result<(), Memory>
    ensures { OnOk result (Appends (λ b. b ≡ low_first width value) out.old out.new) }
{
    if width == 0 {
        return Ok(());
    }
    out.push((value % 256) as u8)?;
    put_low(width - 1, value / 256, out)
}

/// A number of a kind in so many bytes, a negative one as what it lacks to 2 to the power of the width in bits.
fn put_fixed(width: u32, kind: Kind, value: i128, out: &mut Bytes) -> Result<(), Memory>
    requires wide { modulus kind ≡ 2 ^ (8 * width) }
    requires range { InRange kind value }
    ensures { OnOk result (Appends (λ b. b ≡ as_bytes width value) out.old out.new) }
{
    let low = if value < 0 {
        value + kind.modulus()
    } else {
        value
    };
    put_low(width, low as u64, out)
}

/// Writes a number of this kind.
pub fn put_number(kind: Kind, value: i128, out: &mut Bytes) -> Result<(), Refusal>
    ensures { Puts (InRange kind value) (IsPlainPart shortest (plain_number kind) (part.Number value)) result out.old out.new }
{
    if value < kind.least() || kind.greatest() < value {
        return Err(Refusal::OtherValues);
    }
    match kind {
        Kind::Nat => leb_write(value as u128, out)?,
        Kind::Int => sleb_write(value, out)?,
        Kind::Nat8 | Kind::Int8 => put_fixed(1, kind, value, out)?,
        Kind::Nat16 | Kind::Int16 => put_fixed(2, kind, value, out)?,
        Kind::Nat32 | Kind::Int32 => put_fixed(4, kind, value, out)?,
        Kind::Nat64 | Kind::Int64 => put_fixed(8, kind, value, out)?,
    }
    Ok(())
}
