//! What an indirect call finds.
ghost use Rattle.std.specs.Prelude.{◌≡◌, ◌<◌, ℕ, Some, length, slice_get};
ghost use Rattle.wasm_tree.specs.Exec.{same_kind, same_kinds, same_type, type_of, entry};
ghost use Rattle.wasm_steps.specs.Layout.{IsModuleLayout};
ghost use Rattle.wasm_machine.specs.Running.{sought};

use crate::call::function_at;
use wasm_steps::ModuleLayout;
use wasm_tree::{FunctionType, Module, ValueType};

fn is_same_kind(a: ValueType, b: ValueType) -> bool
    ensures { result ≡ same_kind a b }
{
    match a {
        ValueType::I32 => match b {
            ValueType::I32 => true,
            ValueType::I64 => false,
        },
        ValueType::I64 => match b {
            ValueType::I32 => false,
            ValueType::I64 => true,
        },
    }
}

fn are_same_kinds(a: &[ValueType], b: &[ValueType]) -> bool
    ensures { result ≡ same_kinds a.now b.now }
{
    if a.len() != b.len() {
        return false;
    }
    for i in 0..a.len() {
        if !is_same_kind(a[i], b[i]) {
            return false;
        }
    }
    true
}

fn is_same_type(a: &FunctionType, b: &FunctionType) -> bool
    ensures { result ≡ same_type (Some a.now) (Some b.now) }
{
    are_same_kinds(a.params.as_slice(), b.params.as_slice())
        && are_same_kinds(a.results.as_slice(), b.results.as_slice())
}

// Whether the function has a type like the one with this index.
fn has_type(tree: &Module, layout: &ModuleLayout, function: u32, signature: u32) -> bool
    requires laid { IsModuleLayout tree.now layout.now }
    requires function { function < length layout.now.functions }
    requires signature { signature < length tree.now.types }
    ensures { result ≡ same_type (type_of tree.now function) (slice_get tree.now.types signature) }
{
    let own = function_at(layout, function).signature;
    let types = tree.types.as_slice();
    is_same_type(&types[own as usize], &types[signature as usize])
}

/// The function at this place of the table, where there is one and its type is like the one with this index.
pub fn seek(
    tree: &Module,
    layout: &ModuleLayout,
    table: &[Option<u32>],
    signature: u32,
    at: u64,
) -> Option<u32>
    requires laid { IsModuleLayout tree.now layout.now }
    requires table { (i f : ℕ) → slice_get table.now i ≡ Some (Some f) → f < length layout.now.functions }
    requires signature { signature < length tree.now.types }
    ensures { result ≡ sought tree.now signature (entry (slice_get table.now at)) }
{
    if at >= table.len() as u64 {
        return None;
    }
    let function = table[at as usize]?;
    if has_type(tree, layout, function, signature) {
        Some(function)
    } else {
        None
    }
}
