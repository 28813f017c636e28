//! Principals from their texts.
ghost use Rattle.std.specs.Prelude.{◌≡◌, List, ℕ, MatchOption};
ghost use Rattle.mo_num.specs.PrincipalText.{IsPrincipal, IsTextOf, with_checksum};

use crate::base32::{read_groups, regrouped};
use crate::crc::crc32;
use crate::principal::{Principal, principal_of};
use smallvec::SmallVec;
use std::alloc::Global;

/// The principal that has this text, or none where no principal has it: IC interface specification, section "Textual
/// representation of principals". Takes no memory.
pub fn principal_read(alloc: Global, text: &[u8]) -> Option<Principal>
    ensures { MatchOption result ((p : List ℕ) → IsPrincipal p → IsTextOf p text.now → ⊥) (λ p. IsPrincipal p × IsTextOf p text.now) }
{
    // 33 bytes make 53 letters, and those have ten dashes between them.
    if text.len() > 63 {
        return None;
    }
    let mut digits: SmallVec<u8, 64> = SmallVec::new(alloc);
    if !read_groups(text, &mut digits) {
        return None;
    }
    match regrouped(alloc, digits.as_slice()) {
        Some(bytes) => checked(alloc, bytes.as_slice()),
        None => None,
    }
}

// The principal behind its checksum.
fn checked(alloc: Global, bytes: &[u8]) -> Option<Principal>
    ensures { MatchOption result ((p : List ℕ) → IsPrincipal p → bytes.now ≡ with_checksum p → ⊥) (λ p. IsPrincipal p × (bytes.now ≡ with_checksum p)) }
{
    let Some((sum, rest)) = bytes.split_first_chunk::<4>() else {
        return None;
    };
    if crc32(rest) != u32::from_be_bytes(*sum) {
        return None;
    }
    principal_of(alloc, rest)
}
