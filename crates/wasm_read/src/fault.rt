//! Why bytes spell no module.
ghost use Rattle.std.specs.Prelude.{◌≡◌};
ghost use Rattle.exact_reading.specs.declared.stop.Stop.TheVariants as stop;

use exact_reading::Stop;
use thiserror::Error;

/// Why the bytes could not be read.
#[derive(Clone, Copy, Debug, PartialEq, Eq, Error)]
pub enum ReadFault {
    /// There are more than 67,108,864 bytes.
    #[error("the module has more than 67108864 bytes")]
    TooLarge,
    /// The first eight bytes are not the header of a module of version 1.
    #[error("the first eight bytes are not those of a WebAssembly module of version 1")]
    NotWasm,
    /// In reading order, the first field that breaks its rule is no code of a float.
    #[error("the bytes spell no WebAssembly module")]
    Malformed,
    /// In reading order, the first field that breaks its rule is the code of a float type or of an instruction on
    /// floats, in a place for a type or an instruction.
    #[error("the module uses floats, which are not supported")]
    Floats,
    /// There was no memory for the module.
    #[error("there is no memory for the module")]
    Memory,
}

/// What the bytes show, apart from want of memory.
#[derive(Clone, Copy)]
pub enum Fault {
    TooLarge,
    NotWasm,
    Malformed,
    Floats,
}

impl From<Fault> for Stop<Fault> {
    ghost from_gives = { λ f e. e ≡ stop.Fault f };

    fn from(fault: Fault) -> Stop<Fault> {
        Stop::Fault(fault)
    }
}
