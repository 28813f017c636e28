//! The names of exports.
ghost use Rattle.std.specs.Prelude.{◌≡◌, ◌≢◌, ◌↔◌, IsTrue, IfOk, map};
ghost use Rattle.std.specs.List.{AllPairs};

use mo_num::Memory;
use std::alloc::Global;
use std::collections::HashSet;
use wasm_tree::Export;

/// Whether no two exports have one name.
pub(crate) fn have_distinct_names(alloc: Global, exports: &[Export]) -> Result<bool, Memory>
    ensures { IfOk result (λ yes. IsTrue yes ↔ AllPairs (λ a b. a ≢ b) (map (λ e. e.name) exports.now)) }
{
    let mut names = HashSet::new(alloc);
    for export in exports {
        if !names.insert(export.name.as_slice())? {
            return Ok(false);
        }
    }
    Ok(true)
}
