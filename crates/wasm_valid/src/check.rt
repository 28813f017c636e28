//! How the parts of a module are checked one after another.
ghost use Rattle.std.specs.Prelude.{◌≡◌, List, ℕ};
ghost use Rattle.wasm_tree.specs.declared.module_parts.Module.{Module};
ghost use Rattle.wasm_valid.specs.Verdict.{Verdict, Sees};
ghost use Rattle.wasm_valid.specs.Parts.{each};

use crate::fault::Fault;
use wasm_tree::Module;

/// A part that is checked as itself.
pub(crate) struct Itself;

/// A limit that is checked as that of a table.
pub(crate) struct Table;

/// A number that is checked as the index of a function.
pub(crate) struct FunctionIndex;

/// A part of a module that is checked, in this role.
pub(crate) trait Check<Role> {
    ghost checked: { Module → List ℕ → Self → Verdict → Verdict };

    /// Whether the part keeps its rules, in a module whose functions have types of these indices.
    fn check(&self, within: &Module, indices: &[u32]) -> Result<(), Fault>
        ensures { (rest : Verdict) → Sees result (checked within.now indices.now self.now rest) (λ _. rest) };
}

/// Each item in turn.
pub(crate) fn check_each<Role, T: Check<Role>>(
    items: &[T],
    within: &Module,
    indices: &[u32],
) -> Result<(), Fault>
    ensures { (rest : Verdict) → Sees result (each (T.checked within.now indices.now) items.now rest) (λ _. rest) }
{
    for item in items {
        item.check(within, indices)?;
    }
    Ok(())
}
