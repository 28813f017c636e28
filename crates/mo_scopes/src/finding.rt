//! What is found at the names of a program.
use crate::meaning::Meaning;
use crate::rule::Breach;
use mo_num::Sequence;

/// What is found at a name.
#[derive(Clone, Copy)]
pub enum Finding {
    /// The name is used, and means this.
    Meaning(Meaning),
    /// A rule is broken here.
    Breach(Breach),
}

/// What is found in a part of a program.
pub type Findings = Sequence<Finding>;
