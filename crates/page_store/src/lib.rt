//! Linear memories of pages, and committed copies of them that are kept by the pages that changed.
#![tactic(auto)]

mod committed;
mod kept_pages;
mod marks;
mod pages;

pub use committed::Committed;
pub use kept_pages::KeptPages;
pub use pages::{PAGE, Pages};
