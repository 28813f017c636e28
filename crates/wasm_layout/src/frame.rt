//! The stack words that frames take.
ghost use Rattle.std.specs.Prelude.{◌≡◌};
ghost use Rattle.wasm_tree.specs.declared.module_parts.Module.{Module};
ghost use Rattle.wasm_steps.specs.Layout.{IsModuleLayout};
ghost use Rattle.wasm_layout.specs.Words.{words_of};

use wasm_steps::ModuleLayout;

/// The stack words of a frame of the function with this index, if the module defines it.
pub fn frame_words(layout: &ModuleLayout, function: u32) -> Option<usize>
    ensures { (m : Module) → IsModuleLayout m layout.now → result ≡ words_of m function }
{
    let facts = layout.functions.as_slice().get(function as usize)?;
    match facts.body {
        Some(body) => Some(body.words),
        None => None,
    }
}
