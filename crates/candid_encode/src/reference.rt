//! Principals and methods.
ghost use Rattle.std.specs.Prelude.{◌≡◌, ◌∷◌, [], OnOk};
ghost use Rattle.mo_types.specs.Spelling.{shortest, IsPrincipal, IsString, Then};
ghost use Rattle.candid_write.specs.Appends.{Appends};

use candid_write::put_string;
use mo_num::{Bytes, Memory, Principal};

/// A principal: a flag, and its bytes with their count.
pub fn put_principal(principal: &Principal, out: &mut Bytes) -> Result<(), Memory>
    ensures { OnOk result (Appends (IsPrincipal shortest principal.now) out.old out.new) }
{
    out.push(1)?;
    put_string(principal.bytes(), out)
}

/// A method: a flag, its actor, and its name.
pub fn put_method(actor: &Principal, name: &[u8], out: &mut Bytes) -> Result<(), Memory>
    ensures { OnOk result (Appends (λ b. Then (λ c. c ≡ 1 ∷ []) (λ c. Then (IsPrincipal shortest actor.now) (IsString shortest name.now) c) b) out.old out.new) }
{
    out.push(1)?;
    put_principal(actor, out)?;
    put_string(name, out)
}
