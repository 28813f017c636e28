//! The functions by which a host enters a module.
ghost use Rattle.std.specs.Prelude.{◌≡◌, ◌<◌, ℕ, [], ◌∷◌, Some, IfSome, find, length, option_map};
ghost use Rattle.std.specs.Str.{bytes_eq};
ghost use Rattle.wasm_tree.specs.Exec.{same_kinds, same_type, type_of};
ghost use Rattle.wasm_tree.specs.Imports.{entry_type};
ghost use Rattle.wasm_tree.specs.declared.types.ValueType.TheVariants.{I32};
ghost use Rattle.wasm_machine.specs.Ran.{IsCallable};
ghost use Rattle.canister_host.specs.Entries.{exported, callback_type, typed_callback};
ghost use Rattle.module_entries.specs.Kinds.{kind_found};

use wasm_tree::{Export, ExportKind, FunctionType, ValueType};
use wasm_valid::Valid;

// What is exported under the name.
fn find_export(exports: &[Export], name: &[u8]) -> Option<ExportKind>
    ensures { result ≡ kind_found (find (λ e. bytes_eq e.name name.now) exports.now) }
{
    for export in exports {
        if export.name.as_slice() == name {
            return Some(export.kind);
        }
    }
    None
}

// Whether the function with this index takes nothing and gives nothing.
fn is_plain(tree: &Valid, function: u32) -> bool
    ensures { result ≡ same_type (type_of tree.now function) (Some entry_type) }
{
    let functions = tree.layout().functions.as_slice();
    let index = function as usize;
    if index >= functions.len() {
        return false;
    }
    let found = functions[index];
    found.params == 0 && found.results == 0
}

/// The function that the module exports under this name, if it takes nothing and gives nothing.
pub fn exported(tree: &Valid, name: &[u8]) -> Option<u32>
    ensures is { result ≡ exported tree.now name.now }
    ensures callable { IfSome result (λ function. IsCallable tree.now function []) }
{
    match find_export(tree.module().exports.as_slice(), name) {
        Some(ExportKind::Function(function)) => {
            if is_plain(tree, function) {
                Some(function)
            } else {
                None
            }
        }
        Some(ExportKind::Table(_)) => None,
        Some(ExportKind::Memory(_)) => None,
        Some(ExportKind::Global(_)) => None,
        None => None,
    }
}

/// The module's start function, if it has one.
pub fn start_function(tree: &Valid) -> Option<u32>
    ensures is { result ≡ tree.now.start }
    ensures callable { IfSome result (λ function. IsCallable tree.now function []) }
{
    tree.module().start
}

// One parameter, an i32.
fn are_one_word(kinds: &[ValueType]) -> bool
    ensures { result ≡ same_kinds kinds.now (I32 ∷ []) }
{
    match kinds {
        [] => false,
        [ValueType::I32] => true,
        [ValueType::I64] => false,
        _ => false,
    }
}

// Whether the function with this index takes an environment number, and gives nothing.
fn is_callback(tree: &Valid, function: u32) -> bool
    ensures { result ≡ same_type (type_of tree.now function) (Some callback_type) }
{
    let functions = tree.layout().functions.as_slice();
    let index = function as usize;
    if index >= functions.len() {
        return false;
    }
    let found = functions[index];
    let signature = &tree.module().types.as_slice()[found.signature as usize];
    found.results == 0 && are_one_word(signature.params.as_slice())
}

/// The function that was found in the table for a callback, if one was and it takes an environment number and gives
/// nothing.
pub fn callback_function(tree: &Valid, found: Option<u32>) -> Option<u32>
    ensures is { result ≡ typed_callback tree.now found }
    ensures callable { IfSome result (λ function. (environment : ℕ) → IsCallable tree.now function (environment ∷ [])) }
{
    match found {
        Some(function) => {
            if is_callback(tree, function) {
                Some(function)
            } else {
                None
            }
        }
        None => None,
    }
}
