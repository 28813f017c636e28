//! A call of an imported function.
ghost use Rattle.outer.specs.Causes.{Rose};
ghost use Rattle.std.specs.Prelude.{◌≡◌, ◌+◌, ◌-◌, ◌<◌, ◌≤◌, ℕ, Some, length, take, drop, IsErrOf, IfOk, slice_get, slice_index};
ghost use Rattle.wasm_tree.specs.declared.types.FunctionType.{FunctionType};
ghost use Rattle.wasm_tree.specs.Frames.{optional};
ghost use Rattle.wasm_machine.specs.Hosts.{Gives, Traps};
ghost use Rattle.wasm_machine.specs.Asked.{Fitting, FitsResult, IfAsked};
ghost use Rattle.wasm_machine.specs.Stacks.{AgreeBelow};

use crate::host::{Host, HostEnd};
use page_store::KeptPages;

// Puts one or no result into a cell, and gives how many there are.
fn put_result(cells: &mut [u64], from: usize, given: Option<u64>) -> usize
    requires room { (value : ℕ) → given ≡ Some value → from < length cells.old }
    requires within { from ≤ length cells.old }
    ensures below { AgreeBelow from cells.new cells.old }
    ensures many { result ≡ length (optional given) }
    ensures there { (value : ℕ) → given ≡ Some value → slice_index cells.new from ≡ value }
{
    match given {
        Some(value) => {
            cells[from] = value;
            1
        }
        None => 0,
    }
}

/// Calls the host with the arguments in these cells. Its result stands in the first of them; the answer is how many
/// results there are.
pub fn ask<H: Host>(
    host: &mut H,
    function: u32,
    from: usize,
    params: usize,
    cells: &mut [u64],
    memory: &mut KeptPages,
) -> Result<usize, HostEnd>
    requires fitting { Fitting (H.types host.old) function (take params (drop from cells.old)) }
    requires within { from + params ≤ length cells.old }
    requires room { (t : FunctionType) → slice_get (H.types host.old) function ≡ Some t → from + length t.results ≤ length cells.old }
    ensures asked { IfAsked result cells.new from (λ value. H.replies host.old function (take params (drop from cells.old)) memory.old.bytes (Gives value memory.new.bytes) host.new) (H.replies host.old function (take params (drop from cells.old)) memory.old.bytes Traps host.new) }
    ensures below { AgreeBelow from cells.new cells.old }
    ensures few { IfOk result (λ many. (t : FunctionType) → slice_get (H.types host.old) function ≡ Some t → many ≡ length t.results) }
    ensures types { H.types host.new ≡ H.types host.old }
    ensures limit { memory.new.limit ≡ memory.old.limit }
    ensures kept { memory.new.kept ≡ memory.old.kept }
    ensures unchanged { IsErrOf result HostEnd.Trap → memory.new ≡ memory.old }
    ensures count { H.count host.old ≤ H.count host.new }
    ensures memory { IsErrOf result HostEnd.Memory → Rose (H.count host.old) (H.count host.new) }
{
    let given = host.call(function, &cells[from..from + params], memory)?;
    Ok(put_result(cells, from, given))
}
