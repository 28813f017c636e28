//! The functions of `ic0` that a module imports.
ghost use Rattle.std.specs.Prelude.{◌≡◌, ◌++◌, ℕ, map, slice_get, IfOk, OnOk};
ghost use Rattle.wasm_machine.specs.Asked.{IsMadeFor};
ghost use Rattle.canister_host.specs.Entries.{imported_function};
ghost use Rattle.canister_host.specs.Types.{type_of_function};
ghost use Rattle.module_entries.specs.Imported.{functions_of, functions_of_import};

use ic0_world::Ic0;
use mo_num::{Memory, Sequence};
use std::alloc::Global;
use wasm_tree::{Import, ImportKind};
use wasm_valid::Valid;

fn push_function(import: &Import, functions: &mut Sequence<Ic0>) -> Result<(), Memory>
    ensures { OnOk result (functions.new ≡ functions.old ++ functions_of_import import.now.name import.now.kind) }
{
    if let ImportKind::Function(_) = import.kind {
        if let Some(function) = Ic0::named(import.name.as_slice()) {
            functions.push(function)?;
        }
    }
    Ok(())
}

fn push_functions(imports: &[Import], functions: &mut Sequence<Ic0>) -> Result<(), Memory>
    ensures { OnOk result (functions.new ≡ functions.old ++ functions_of imports.now) }
{
    for import in imports {
        push_function(import, functions)?;
    }
    Ok(())
}

/// The functions of `ic0` that a module imports, by their indices. A host of these functions is made for the module's
/// imports: each has the type that the module asks for.
pub fn imported_functions(alloc: Global, tree: &Valid) -> Result<Sequence<Ic0>, Memory>
    ensures each { IfOk result (λ functions. (index : ℕ) → slice_get functions index ≡ imported_function tree.now index) }
    ensures made_for { IfOk result (λ functions. IsMadeFor tree.now (map type_of_function functions)) }
{
    let mut functions = Sequence::new(alloc);
    push_functions(tree.module().imports.as_slice(), &mut functions)?;
    Ok(functions)
}
