//! Where the functions of a list stand in the order of evaluation.
ghost use Rattle.std.specs.Prelude.{◌≡◌, IfOk, map, replicate};
ghost use Rattle.judged_parts.specs.Parts.{See};
ghost use Rattle.kernel_places.specs.Reaching.{function_place};
ghost use Rattle.kernel_places.specs.Similar.{declared_list};

use crate::rounds::mark_list;
use crate::step::{Step, steps_of};
use crate::users::users_of;
use abstract_tree::Declaration;
use kernel_names::Names;
use mo_num::{Memory, Sequence};
use std::alloc::Global;
use value_scopes::Note;

/// So many functions without marks.
fn unmarked(alloc: Global, len: usize) -> Result<Vec<usize>, Memory>
    ensures { IfOk result (λ made. made.items ≡ replicate len 0) }
{
    Ok(vec![in alloc; 0; len]?)
}

fn places_of_steps(alloc: Global, steps: &[Step]) -> Result<Sequence<usize>, Memory>
    ensures { IfOk result (λ made. made ≡ map (function_place steps.now) steps.now) }
{
    let users = users_of(alloc, steps)?;
    let mut marks = unmarked(alloc, steps.len())?;
    let mut late = Names::new(alloc);
    mark_list(alloc, steps, &users, &mut marks, &mut late)?;
    Ok(Sequence::from_vec(marks))
}

/// For each declaration of a list, if it is a function or class, how many declarations stand before its place in the order of evaluation, and else 0: it
/// stands directly behind the last declaration that defines a name which it reaches (Motoko language manual, "Declarations"). The functions are walked once;
/// a list costs the names that occur in its functions.
pub fn places(alloc: Global, declarations: &[Declaration<Note>]) -> Result<Sequence<usize>, Memory>
    ensures { (see : See) → IfOk result (λ made. made ≡ map (function_place (declared_list see declarations.now)) (declared_list see declarations.now)) }
{
    let steps = steps_of(alloc, declarations)?;
    places_of_steps(alloc, steps.as_slice())
}
