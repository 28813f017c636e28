//! The check of a function (WebAssembly Core 1.0, section 3.4.1).
ghost use Rattle.std.specs.Prelude.{◌≡◌, Option};
ghost use Rattle.std.specs.List.{AllByRecursion};
ghost use Rattle.wasm_tree.specs.Rules.{every, signatures};
ghost use Rattle.wasm_tree.specs.Valid.{IsValidFunction, IsValidType};
ghost use Rattle.wasm_valid.specs.Verdict.{Passes, Sees, Checked};
ghost use Rattle.wasm_valid.specs.Function.{function_run};

use crate::body::{run, type_with};
use crate::fault::Fault;
use crate::locals::LocalTypes;
use std::alloc::Global;
use wasm_tree::{Function, Module};

fn run_function(
    alloc: Global,
    within: &Module,
    indices: &[u32],
    function: &Function,
) -> Result<(), Fault>
    ensures { Sees result (function_run within.now indices.now function.now) (λ _. Passes) }
{
    let signature = type_with(within, function.signature)?;
    let locals = LocalTypes::new(
        alloc,
        signature.params.as_slice(),
        function.locals.as_slice(),
    )?;
    let outcome = signature.results.as_slice().first().copied();
    run(
        alloc,
        within,
        indices,
        &locals,
        outcome,
        function.body.as_slice(),
    )?;
    Ok(())
}

#[tactic(auto, using(crate::proofs::Functions::function_checked))]
/// Whether a function is valid, in a module whose types are.
pub(crate) fn check_function(
    alloc: Global,
    within: &Module,
    indices: &[u32],
    function: &Function,
) -> Result<(), Fault>
    ensures { AllByRecursion (IsValidType every within.now) within.now.types → indices.now ≡ signatures within.now → Checked (λ asked. IsValidFunction asked within.now function.now) result }
{
    run_function(alloc, within, indices, function)
}
