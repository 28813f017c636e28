//! Bytes read from left to right, exactly: what stands at the front, what comes after it, and the first fault.
#![tactic(auto)]

mod number;
mod slice;
mod stop;

pub use number::{read_signed, read_u32, read_unsigned};
pub use slice::{read_bytes, read_slice, split};
pub use stop::Stop;
