//! Laws of reading. Each function does nothing: its contract is a theorem about the definitions that `read` cites.
ghost use Rattle.std.specs.Prelude.{◌≡◌, ◌≤◌, ℕ, List, length, Ok};
ghost use Rattle.wasm_tree.specs.declared.module_parts.Module.{Module};
ghost use Rattle.wasm_tree.specs.Binary.{Written};
ghost use Rattle.wasm_read.specs.Sections.{module_at};

/// Two modules that are spelled by the same bytes are equal.
pub fn one_module()
    ensures { (m n : Module) (bytes : List ℕ) → Written m bytes → Written n bytes → m ≡ n }
{}

/// Reading gives a module exactly where at most 67,108,864 bytes spell it.
pub fn read_where_written()
    ensures found { (m : Module) (bytes : List ℕ) → module_at bytes ≡ Ok m → Written m bytes }
    ensures only { (m : Module) (bytes : List ℕ) → length bytes ≤ 67108864 → Written m bytes → module_at bytes ≡ Ok m }
{}
