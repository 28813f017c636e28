//! How many operands plain instructions take and give (WebAssembly Core 1.0, sections 3.3.1 to 3.3.4).
ghost use Rattle.std.specs.Prelude.{◌≡◌, ◌≤◌};
ghost use Rattle.wasm_tree.specs.Frames.{taken, given};

use wasm_tree::Plain;

/// How many operands an instruction takes.
pub fn taken(plain: Plain) -> usize
    ensures { result ≡ taken plain }
{
    match plain {
        Plain::Nop
        | Plain::LocalGet(_)
        | Plain::GlobalGet(_)
        | Plain::MemorySize
        | Plain::I32Const(_)
        | Plain::I64Const(_) => 0,
        Plain::Drop
        | Plain::LocalSet(_)
        | Plain::LocalTee(_)
        | Plain::GlobalSet(_)
        | Plain::Load(_, _)
        | Plain::MemoryGrow
        | Plain::EqualsZero(_)
        | Plain::Unary(_, _)
        | Plain::Convert(_) => 1,
        Plain::Store(_, _) | Plain::Compare(_, _) | Plain::Binary(_, _) => 2,
        Plain::Select => 3,
    }
}

/// How many operands an instruction gives.
pub fn given(plain: Plain) -> usize
    ensures value { result ≡ given plain }
    ensures few { result ≤ 1 }
{
    match plain {
        Plain::Nop | Plain::Drop | Plain::LocalSet(_) | Plain::GlobalSet(_) | Plain::Store(_, _) =>
            0,
        _ => 1,
    }
}
