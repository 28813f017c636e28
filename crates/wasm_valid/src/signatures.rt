//! The types' indices of all functions.
ghost use Rattle.std.specs.Prelude.{◌≡◌, ◌++◌, map, OnOk, IfOk};
ghost use Rattle.wasm_tree.specs.Rules.{imported_signatures, signatures};

use mo_num::Memory;
use std::alloc::Global;
use wasm_tree::{Function, Import, ImportKind, Module};

fn push_imported(imports: &[Import], indices: &mut Vec<u32>) -> Result<(), Memory>
    ensures { OnOk result (indices.new.items ≡ indices.old.items ++ imported_signatures imports.now) }
{
    for import in imports {
        if let ImportKind::Function(signature) = import.kind {
            indices.push(signature)?;
        }
    }
    Ok(())
}

fn push_defined(functions: &[Function], indices: &mut Vec<u32>) -> Result<(), Memory>
    ensures { OnOk result (indices.new.items ≡ indices.old.items ++ map (λ f. f.signature) functions.now) }
{
    for function in functions {
        indices.push(function.signature)?;
    }
    Ok(())
}

/// Those of the imported functions, and then those of the others.
pub(crate) fn signatures_of(alloc: Global, tree: &Module) -> Result<Vec<u32>, Memory>
    ensures { IfOk result (λ indices. indices.items ≡ signatures tree.now) }
{
    let mut indices = Vec::new(alloc);
    push_imported(tree.imports.as_slice(), &mut indices)?;
    push_defined(tree.functions.as_slice(), &mut indices)?;
    Ok(indices)
}
