//! What a value of one program is kept as at a type of the next one: Motoko language manual, section "Stable variables".
ghost use Rattle.std.specs.Prelude.{◌≡◌, [], ◌∷◌, Decides, IfOk};
ghost use Rattle.mo_types.specs.Graph.{head_at};
ghost use Rattle.mo_types.specs.Heads.{map_option};
ghost use Rattle.mo_types.specs.Values.{HaveTypes, Values, flat};
ghost use Rattle.kept_parts.specs.Keeping.{HasForm, IsKeptAs, IsValueOf};

use crate::comparing::same_parts;
use crate::forming::form_parts;
use crate::unforming::unform_parts;
use candid_encode::have_types;
use candid_keep::are_same;
use mo_num::Memory;
use mo_types::{Datum, TypeGraph, TypeId};
use std::alloc::Global;

// Whether these are the parts of a value of this type, with this Candid value.
fn has_form(
    alloc: Global,
    types: &TypeGraph,
    of_type: TypeId,
    parts: &[Datum],
    candid: &[Datum],
) -> Result<bool, Memory>
    ensures { IfOk result (λ yes. Decides yes (HasForm (head_at types.now) of_type parts.now candid.now)) }
{
    let typed = have_types(alloc, types, &[of_type], parts)?;
    if !typed {
        return Ok(false);
    }
    let again = form_parts(alloc, types, of_type, parts)?;
    Ok(same_parts(again.as_slice(), candid))
}

// The parts of the value of this type with this Candid value, or none where there is none.
fn value_of(
    alloc: Global,
    types: &TypeGraph,
    of_type: TypeId,
    candid: &[Datum],
) -> Result<Option<Vec<Datum>>, Memory>
    ensures { IfOk result (λ o. IsValueOf (head_at types.now) of_type candid.now (map_option (λ ps. ps.items) o)) }
{
    let parts = unform_parts(alloc, types, of_type, candid)?;
    let fits = has_form(alloc, types, of_type, parts.as_slice(), candid)?;
    if fits { Ok(Some(parts)) } else { Ok(None) }
}

/// The parts of the value of a type of the new program that a value of a type of the old one is kept as, or none where it is kept
/// as no value. Takes no native stack by the values.
pub fn kept_parts(
    alloc: Global,
    old: &TypeGraph,
    new: &TypeGraph,
    from: TypeId,
    to: TypeId,
    parts: &[Datum],
) -> Result<Option<Vec<Datum>>, Memory>
    ensures { IfOk result (λ o. (v : Values) → HaveTypes (head_at old.now) (from ∷ []) v → parts.now ≡ flat v → IsKeptAs (head_at old.now) (head_at new.now) from to v (map_option (λ ps. ps.items) o)) }
{
    let same = are_same(alloc, old, new, &[from], &[to])?;
    if !same {
        return Ok(None);
    }
    let candid = form_parts(alloc, old, from, parts)?;
    value_of(alloc, new, to, candid.as_slice())
}
