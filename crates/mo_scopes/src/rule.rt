//! The rules on names.
use mo_syntax::Place;

/// A rule on the names of a program. Of those that are broken at one place the first in this order is named.
#[derive(Clone, Copy)]
pub enum Rule {
    /// Each name that is used has a meaning, and each path names a module.
    Unknown,
    /// No name is bound twice in one list, pattern or type.
    Twice,
    /// No value is used before it is defined.
    UsedBeforeDefined,
    /// No two labels of one object, variant or actor, and no two stable variables, have equal numbers in Candid.
    LabelClash,
    /// No identifier begins with `__`, and no label is `_`, digits and `_`.
    Reserved,
}

/// A rule that is broken, and where.
#[derive(Clone, Copy)]
pub struct Breach {
    pub rule: Rule,
    pub place: Place,
}
