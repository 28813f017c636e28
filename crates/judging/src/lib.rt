//! How a rule of typing judges an expression: by the judging of its parts, up to its end.
#![tactic(auto)]

mod asking;
mod checker;
mod heads;
mod layer;
mod lists;
mod meeting;
mod site;
mod wanted;

pub use asking::greatest;
pub use checker::Checker;
pub use heads::{is_blob, number_of, option_part, tuple_parts};
pub use layer::{Judged, Layer, Part};
pub use meeting::{meets_plain, meets_unit};
pub use site::Site;
