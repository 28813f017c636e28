//! Validation of modules (WebAssembly Core 1.0, section 3).
ghost use Rattle.std.specs.Prelude.{◌≡◌, ◌+◌, ◌≤◌, length, IfOk, IfErr};
ghost use Rattle.std.specs.List.{AllByRecursion};
ghost use Rattle.wasm_tree.specs.Rules.{every, imported_signatures, signatures};
ghost use Rattle.wasm_tree.specs.Valid.{IsValidFunction, IsValidType, HasValidParts, ValidModule};
ghost use Rattle.wasm_valid.specs.declared.fault.ValidFault.TheVariants.{Memory};
ghost use Rattle.wasm_valid.specs.Judged.{IsCause, Judged, JudgedFunctions, with_number};
ghost use Rattle.wasm_valid.specs.Verdict.{Checked};

use crate::fault::{Fault, ValidFault};
use crate::function::check_function;
use crate::names::have_distinct_names;
use crate::parts::check_parts;
use crate::signatures::signatures_of;
use std::alloc::Global;
use std::marker::Model;
use wasm_layout::{frame_words, layout};
use wasm_steps::ModuleLayout;
use wasm_tree::{Module, Rule};

/// A module that keeps every rule, with its code laid out as steps.
#[derive(Drop)]
pub struct Valid {
    tree: Module,
    steps: ModuleLayout,
}

impl Model for Valid {
    ghost use Rattle.wasm_tree.specs.declared.module_parts.Module.{Module};
    ghost use Rattle.wasm_tree.specs.Valid.{ValidModule};
    ghost use Rattle.wasm_steps.specs.Layout.{IsModuleLayout};

    ghost Value = { Module };

    ghost view = { λ v. v.tree };

    ghost invariant = { λ v. ValidModule v.tree × IsModuleLayout v.tree v.steps };
}

impl Valid {
    ghost use Rattle.wasm_tree.specs.Valid.{ValidModule};
    ghost use Rattle.wasm_steps.specs.Layout.{IsModuleLayout};
    ghost use Rattle.wasm_layout.specs.Words.{words_of};

    /// The module.
    pub fn module(&self) -> &Module
        ensures is { result.now ≡ self.now }
        ensures valid { ValidModule result.now }
    {
        &self.tree
    }

    /// The steps of the module, and what a machine knows of its functions.
    pub fn layout(&self) -> &ModuleLayout
        ensures { IsModuleLayout self.now result.now }
    {
        &self.steps
    }

    /// The stack words that a frame of the function with this index takes, if the module defines it.
    pub fn frame_words(&self, function: u32) -> Option<usize>
        ensures { result ≡ words_of self.now function }
    {
        frame_words(&self.steps, function)
    }
}

/// What is asked besides the functions.
fn check_besides(alloc: Global, tree: &Module, indices: &[u32]) -> Result<(), Fault>
    requires { indices.now ≡ signatures tree.now }
    ensures { Checked (λ asked. HasValidParts asked tree.now) result }
{
    check_parts(tree, indices)?;
    if !have_distinct_names(alloc, tree.exports.as_slice())? {
        return Err(Fault::Broken(Rule::Export));
    }
    Ok(())
}

/// A function's fault, with the function's number.
fn numbered(fault: Fault, function: Option<u32>) -> ValidFault
    ensures { result ≡ with_number fault function }
{
    match fault {
        Fault::Broken(rule) => ValidFault::Broken { function, rule },
        Fault::Memory => ValidFault::Memory,
    }
}

/// The functions that the module defines, after so many imported ones.
fn check_functions(
    alloc: Global,
    tree: &Module,
    indices: &[u32],
    imported: usize,
) -> Result<(), ValidFault>
    requires same { indices.now ≡ signatures tree.now }
    requires types { AllByRecursion (IsValidType every tree.now) tree.now.types }
    requires after { imported ≡ length (imported_signatures tree.now.imports) }
    requires few { imported + length tree.now.functions ≤ 100000 }
    ensures { JudgedFunctions tree.now result }
{
    let functions = tree.functions.as_slice();
    for place in 0..functions.len() {
        if let Err(fault) = check_function(alloc, tree, indices, &functions[place]) {
            return Err(numbered(fault, Some((imported + place) as u32)));
        }
    }
    Ok(())
}

/// Whether the module keeps every rule.
fn check_module(alloc: Global, tree: &Module) -> Result<(), ValidFault>
    ensures { Judged tree.now result }
{
    let indices = match signatures_of(alloc, tree) {
        Ok(indices) => indices,
        Err(_) => return Err(ValidFault::Memory),
    };
    if let Err(fault) = check_besides(alloc, tree, indices.as_slice()) {
        return Err(numbered(fault, None));
    }
    let imported = indices.len() - tree.functions.len();
    check_functions(alloc, tree, indices.as_slice(), imported)
}

/// The module, where it keeps every rule; or a rule that it breaks, and where. A module that breaks several rules may
/// answer each of them.
pub fn validate(alloc: Global, tree: Module) -> Result<Valid, ValidFault>
    ensures found { IfOk result (λ valid. (valid ≡ tree) × ValidModule tree) }
    ensures broken { IfErr result (λ fault. IsCause tree fault) }
    ensures only { IfErr result (λ fault. ValidModule tree → fault ≡ Memory) }
{
    if let Err(fault) = check_module(alloc, &tree) {
        return Err(fault);
    }
    // No memory holds so many steps that their places have no number.
    match layout(alloc, &tree) {
        Ok(steps) => Ok(Valid { tree, steps }),
        Err(_) => Err(ValidFault::Memory),
    }
}
