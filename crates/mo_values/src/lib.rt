//! Values, and what operations make of them, for all languages of the compiler. It holds the definitions; each function
//! does nothing, and its contract is a theorem about them.
#![tactic(auto)]

mod error_code;
mod laws;
mod operation;
mod rows;

pub use error_code::ErrorCode;
pub use laws::{
    alike_operands_have_alike_answers, costs_see_no_function, leaves_are_of_their_types,
    operations_see_no_function, recodings_compose, wrapping_goes_by_whole_turns,
};
pub use operation::{Comparison, Operation, Scalar, Wrapping};
pub use rows::{
    costs_are_as_wanted, equality_is_as_wanted, messages_are_as_wanted, numbers_are_as_wanted,
    parts_are_as_wanted, texts_are_as_wanted,
};
