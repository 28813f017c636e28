//! Scopes of an actor.
ghost use Rattle.std.specs.Prelude.{◌≡◌, ◌++◌, ◌+◌, ◌-◌, suc, replicate, IfOk, OnOk};
ghost use Rattle.elaboration.specs.Programs as programs;
ghost use Rattle.elaboration.specs.Scopes as scopes;
ghost use Rattle.core_places.specs.Knowing.{known_places};

use core_scopes::{Place, Scope};
use mo_num::Memory;
use std::alloc::Global;

// One more. There are never so many that their number is none of 32 bits.
fn one_more(count: u32) -> Result<u32, Memory>
    ensures { IfOk result (λ more. more ≡ suc count) }
{
    match count.checked_add(1) {
        Some(more) => Ok(more),
        None => Err(Memory),
    }
}

// What was kept of so many stable variables, that of the last one furthest in.
fn add_kept(scope: &mut Scope, kept: u32) -> Result<(), Memory>
    ensures { OnOk result (scope.new ≡ record scope.old { places = programs.kept_places kept ++ scope.old.places }) }
{
    for number in 0..kept {
        scope.push(Place::Local(one_more(number)?))?;
    }
    Ok(())
}

// So many names of the actor, from this number on, the first one nearest.
fn add_own(scope: &mut Scope, first: u32, count: u32) -> Result<(), Memory>
    ensures { OnOk result (scope.new ≡ record scope.old { places = programs.own_from first count ++ scope.old.places }) }
{
    let Some(end) = first.checked_add(count) else {
        return Err(Memory);
    };
    for done in 0..count {
        scope.push(Place::Own(end - done - 1))?;
    }
    Ok(())
}

/// So many names of which there is no use.
pub fn add_unknown(scope: &mut Scope, count: u32) -> Result<(), Memory>
    ensures { OnOk result (scope.new ≡ record scope.old { places = replicate count scopes.Nowhere ++ scope.old.places }) }
{
    for _done in 0..count {
        scope.push(Place::Nowhere)?;
    }
    Ok(())
}

/// The scope of the start of an actor with so many methods and stable variables.
pub fn start_scope(alloc: Global, methods: u32, kept: u32) -> Result<Scope, Memory>
    ensures { IfOk result (λ made. made ≡ programs.start_scope methods kept) }
{
    let mut scope = Scope::new(alloc);
    add_kept(&mut scope, kept)?;
    let count = one_more(methods)?;
    add_own(&mut scope, 0, count)?;
    let names = one_more(kept)?;
    scope.go_beside(names)?;
    Ok(scope)
}

/// The scope of the methods of an actor with so many methods, stable variables, declared names and functions.
pub fn known(
    alloc: Global,
    methods: u32,
    kept: u32,
    declared: u32,
    functions: u32,
) -> Result<Scope, Memory>
    ensures { IfOk result (λ made. made ≡ programs.outside (known_places methods kept declared functions)) }
{
    let mut scope = Scope::new(alloc);
    add_unknown(&mut scope, kept)?;
    let count = one_more(methods)?;
    add_own(&mut scope, 0, count)?;
    let first = one_more(count)?;
    add_own(&mut scope, first, declared)?;
    add_unknown(&mut scope, functions)?;
    Ok(scope)
}
