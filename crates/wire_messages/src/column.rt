//! The types of the parameters and results that stand in messages as they are.
use mo_num::Kind;

/// A number of a kind, a truth value, or ().
#[derive(Clone, Copy)]
pub enum Wired {
    Number(Kind),
    Truth,
    Unit,
}
