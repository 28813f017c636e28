//! The numeric instructions and the loads of WebAssembly Core 1.0 (sections 4.3 and 4.4.4) on words of 64 bits.
//!
//! A word holds an i64, or an i32 in its low bits: instructions of i32 do not look at the other bits, and answer words
//! below 2^32. No function takes memory, and each is made to be inlined where its instruction is known.
#![tactic(auto)]

mod arithmetic;
mod bits;
mod comparison;
mod conversion;
mod memory;

pub use arithmetic::binary;
pub use bits::unary;
pub use comparison::{compare, equals_zero};
pub use conversion::convert;
pub use memory::load;
