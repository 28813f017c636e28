//! Names with their places.
ghost use Rattle.std.specs.Prelude.{◌≡◌, ◌+◌, IfOk, map};
ghost use Rattle.typing_rules.specs.Spans.{name_at, one};
ghost use Rattle.abstract_types.specs.TypeView.{named};
ghost use Rattle.abstract_type_walk.specs.Stands.{Lists, Stands};
ghost use Rattle.abstract_parts.specs.TreeWalks.{AreNames};

use abstract_types::{PlacedName, number_behind, placed_name};
use mo_num::Memory;
use mo_syntax::{Items, Name};
use std::alloc::Global;

/// The name of a declaration: the token behind so many.
pub fn name_behind(alloc: Global, name: &Name, at: u32, tokens: u32) -> Result<PlacedName, Memory>
    ensures { IfOk result (λ made. named made ≡ name_at name.now (at + tokens)) }
{
    placed_name(alloc, name, number_behind(at, tokens)?)
}

fn one_name(alloc: Global, name: &Name, at: u32, tokens: u32) -> Result<(PlacedName, u32), Memory>
    ensures { IfOk result (Stands named (one (name_at name.now)) (at + tokens)) }
{
    let place = number_behind(at, tokens)?;
    let behind = number_behind(place, 1)?;
    Ok((placed_name(alloc, name, place)?, behind))
}

fn each_name(
    alloc: Global,
    names: &[Name],
    at: u32,
    tokens: u32,
) -> Result<(Items<PlacedName>, u32), Memory>
    ensures { IfOk result (Lists named (map (λ y. one (name_at y)) names.now) (at + tokens)) }
{
    let mut next = number_behind(at, tokens)?;
    let mut mark = 0;
    let mut made = Items::new(alloc);
    for one in names {
        let (name, behind) = one_name(alloc, one, next, mark)?;
        made.push(name)?;
        next = behind;
        mark = 1;
    }
    Ok((made, next))
}

/// The names in `< >` of a type definition, where these stand.
pub fn abstract_names(
    alloc: Global,
    names: &Option<Items<Name>>,
    at: u32,
    tokens: u32,
) -> Result<(Items<PlacedName>, u32), Memory>
    ensures { IfOk result (AreNames names.now (at + tokens)) }
{
    let open = number_behind(at, tokens)?;
    match names {
        None => Ok((Items::new(alloc), open)),
        Some(names) => {
            let (made, close) = each_name(alloc, names.as_slice(), open, 1)?;
            Ok((made, number_behind(close, 1)?))
        }
    }
}
