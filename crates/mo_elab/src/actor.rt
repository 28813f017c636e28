//! Actors.
ghost use Rattle.std.specs.Prelude.{◌≡◌, ◌+◌, length, IfOk};
ghost use Rattle.typed_tree.specs.ProgramView as source;
ghost use Rattle.elaboration.specs.Programs as programs;
ghost use Rattle.mo_elab.specs.Spine.{IsActor};

use core_expressions::declaration;
use core_hooks::{save_body, start_end};
use core_ir::{CoreBody, Expression};
use core_layers::{Fails, around};
use core_methods::method_bodies;
use core_parts::{Groups, amount, one_more};
use core_places::{known, start_scope};
use mo_num::{Memory, Sequence};
use mo_syntax::Place;
use std::alloc::Global;
use typed_tree::Program;

/// What a program is made of.
#[derive(Drop)]
pub(crate) struct Actor {
    pub start: Expression,
    pub groups: Groups,
    pub methods: Sequence<CoreBody>,
    pub save: CoreBody,
}

// How many functions stand behind the declarations: those of the methods and the hooks.
fn count_functions(program: &Program) -> Result<u32, Memory>
    ensures { IfOk result (λ count. count ≡ length (source.functions_of program.now)) }
{
    let methods = amount(program.methods.len())?;
    let before = match program.before_upgrade {
        Some(_) => one_more(methods)?,
        None => methods,
    };
    match program.after_upgrade {
        Some(_) => one_more(before),
        None => Ok(before),
    }
}

// How many names the declarations have, where there are so many places.
fn declared_among(places: usize, methods: u32, kept: u32) -> Result<u32, Memory>
    ensures { IfOk result (λ count. places ≡ count + (1 + methods) + kept) }
{
    let all = amount(places)?;
    let Some(rest) = all.checked_sub(one_more(methods)?) else {
        return Err(Memory);
    };
    match rest.checked_sub(kept) {
        Some(count) => Ok(count),
        None => Err(Memory),
    }
}

/// The parts of the actor that a program is. Its names are never so many that their number is none of 32 bits.
pub(crate) fn actor_of(alloc: Global, program: &Program) -> Result<Actor, Memory>
    ensures { IfOk result (λ made. IsActor (programs.elaborate_actor (length program.now.methods) (length program.now.stable) (programs.start_scope (length program.now.methods) (length program.now.stable)) 0 (source.program program.now).body) made.start made.groups made.methods made.save) }
{
    let place = Place { start: 0, end: 0 };
    let count = amount(program.methods.len())?;
    let kept = amount(program.stable.len())?;
    let functions = count_functions(program)?;
    let mut scope = start_scope(alloc, count, kept)?;
    let mut groups = Sequence::new(alloc);
    let mut layers = Vec::new(alloc);
    for step in program.declarations.as_slice() {
        layers = declaration(alloc, &mut scope, &mut groups, step, layers)?;
    }
    let declared = declared_among(scope.places(), count, kept)?;
    let hook = &program.after_upgrade;
    let end = start_end(alloc, &mut scope, &mut groups, declared, functions, hook)?;
    let start = around(alloc, place, layers, Fails::Traps, end)?;
    let mut inside = known(alloc, count, kept, declared, functions)?;
    let methods = method_bodies(alloc, &mut inside, &mut groups, program.methods.as_slice())?;
    let hook = &program.before_upgrade;
    let stable = program.stable.as_slice();
    let save = save_body(alloc, &mut inside, &mut groups, functions, hook, stable)?;
    Ok(Actor {
        start,
        groups,
        methods,
        save,
    })
}
