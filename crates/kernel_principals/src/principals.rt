//! The principals of actor references.
ghost use Rattle.std.specs.Prelude.{◌≡◌, IfOk};
ghost use Rattle.desugaring.specs.PrincipalBytes.{principal_bytes};

use mo_num::{Memory, Principal, principal_read};
use std::alloc::Global;

/// The principal of this text: Motoko language manual, section "Actor references". In a judged program each such text is that of a
/// principal, so that the other case never comes.
pub fn principal(alloc: Global, text: &[u8]) -> Result<Principal, Memory>
    ensures { IfOk result (λ made. made ≡ principal_bytes text.now) }
{
    match principal_read(alloc, text) {
        Some(read) => Ok(read),
        None => Err(Memory),
    }
}
