//! Initialisers (WebAssembly Core 1.0, section 3.3.7).
ghost use Rattle.std.specs.Prelude.{◌≡◌};
ghost use Rattle.wasm_tree.specs.Load.{constant};

use wasm_tree::{Expression, Op, Plain};

/// The bits of a constant. Code of another form, which no valid module has as an initialiser, gives 0.
pub(crate) fn constant(code: &Expression) -> u64
    ensures { result ≡ constant code.now }
{
    match code.as_slice() {
        [Op::Plain(Plain::I32Const(z)), ..] => u64::from(z.cast_unsigned()),
        [Op::Plain(Plain::I64Const(z)), ..] => z.cast_unsigned(),
        _ => 0,
    }
}
