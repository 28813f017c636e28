//! The layout of a module.
ghost use Rattle.std.specs.Prelude.{◌≡◌, ◌<◌, ◌≤◌, ◌+◌, ◌++◌, ◌^◌, IfOk, IfErr, OnOk, length, map};
ghost use Rattle.wasm_tree.specs.Rules.{imported_signatures};
ghost use Rattle.wasm_tree.specs.Valid.{ValidModule};
ghost use Rattle.wasm_steps.specs.Layout.{IsModuleLayout};
ghost use Rattle.wasm_layout.specs.Arities.{arity_of};
ghost use Rattle.wasm_layout.specs.Modules.{arities_of, imported_layout, steps_at, defined_layout, all_steps, all_layouts};
ghost use Rattle.wasm_layout.specs.Sizes.{locals_of, room_of, IsSmall, IsTooLarge};
ghost use Rattle.wasm_layout.specs.declared.fault.LayoutFault.TheVariants.{TooLarge};

use crate::arity::{Arities, Arity, arity_at, count, module_arities, signature_arity};
use crate::body::lay_body;
use crate::fault::LayoutFault;
use crate::size::{locals, room};
use mo_num::{Memory, Sequence};
use std::alloc::Global;
use wasm_steps::{BodyLayout, FunctionLayout, ModuleLayout, Step};
use wasm_tree::{Function, FunctionType, Import, ImportKind, Module};

/// The facts of an imported function with this type.
fn imported(types: &[Arity], signature: u32) -> FunctionLayout
    ensures { result ≡ imported_layout types.now signature }
{
    let arity = arity_at(types, signature);
    FunctionLayout {
        signature,
        params: arity.params,
        results: count(arity.result),
        body: None,
    }
}

/// The facts of the imported functions.
fn each_imported(
    alloc: Global,
    types: &[Arity],
    imports: &[Import],
) -> Result<Vec<FunctionLayout>, Memory>
    ensures { IfOk result (λ functions. functions.items ≡ map (imported_layout types.now) (imported_signatures imports.now)) }
{
    let mut functions = Vec::new(alloc);
    for import in imports {
        if let ImportKind::Function(signature) = import.kind {
            functions.push(imported(types, signature))?;
        }
    }
    Ok(functions)
}

/// Adds the steps of a function, and answers its facts.
fn lay_function(
    alloc: Global,
    types: &[FunctionType],
    arities: &Arities,
    function: &Function,
    steps: &mut Vec<Step>,
) -> Result<FunctionLayout, Memory>
    requires types { arities.now.types ≡ map arity_of types.now }
    requires steps { length steps.old.items + length function.now.body + 1 < 2 ^ 32 }
    requires locals { locals_of function.now.locals < 2 ^ 32 }
    ensures steps { OnOk result (steps.new.items ≡ steps.old.items ++ steps_at arities.now (length steps.old.items) function.now) }
    ensures facts { IfOk result (λ layout. layout ≡ defined_layout arities.now (length steps.old.items) function.now) }
    ensures longer { OnOk result (length steps.new.items ≤ length steps.old.items + length function.now.body + 1) }
{
    let arity = signature_arity(types, function.signature);
    let locals = locals(function.locals.as_slice());
    let entry = steps.len();
    let extent = lay_body(
        alloc,
        arities,
        arity.result,
        function.body.as_slice(),
        steps,
    )?;
    Ok(FunctionLayout {
        signature: function.signature,
        params: arity.params,
        results: count(arity.result),
        body: Some(BodyLayout {
            entry,
            locals,
            height: extent.height,
            words: extent.words(arity.params, locals),
        }),
    })
}

/// The steps of all functions, with their facts.
pub fn lay_module(alloc: Global, module: &Module, room: usize) -> Result<ModuleLayout, Memory>
    requires { IsSmall «module».now.functions }
    ensures steps { IfOk result (λ layout. layout.steps ≡ all_steps (arities_of «module».now) 0 «module».now.functions) }
    ensures facts { IfOk result (λ layout. layout.functions ≡ all_layouts «module».now) }
    ensures few { IfOk result (λ layout. length layout.steps ≤ room_of «module».now.functions) }
{
    let types = module.types.as_slice();
    let arities = module_arities(alloc, module)?;
    let mut functions = each_imported(alloc, arities.types.as_slice(), module.imports.as_slice())?;
    let mut steps = Vec::with_capacity(alloc, room)?;
    for function in module.functions.as_slice() {
        let layout = lay_function(alloc, types, &arities, function, &mut steps)?;
        functions.push(layout)?;
    }
    Ok(ModuleLayout {
        steps: Sequence::from_vec(steps),
        functions: Sequence::from_vec(functions),
    })
}

/// The steps of a valid module, and what a machine knows of its functions. A module is too large where its bodies hold
/// 2^32 instructions and ends or more, or one of its functions has 2^32 locals or more.
pub fn layout(alloc: Global, module: &Module) -> Result<ModuleLayout, LayoutFault>
    requires { ValidModule «module».now }
    ensures laid { IfOk result (λ layout. IsModuleLayout «module».now layout) }
    ensures small { OnOk result (IsSmall «module».now.functions) }
    ensures large { IfErr result (λ fault. fault ≡ TooLarge → IsTooLarge «module».now.functions) }
{
    match room(module.functions.as_slice()) {
        None => Err(LayoutFault::TooLarge),
        Some(room) => Ok(lay_module(alloc, module, room)?),
    }
}
