//! How deep what stands in expressions nests, and how much stands open at once where they are evaluated: measures, and what is asked of the bodies of
//! functions. The function of `laws` does nothing, and its contract is a theorem.
#![tactic(auto)]

mod laws;

pub use laws::parts_pile_less;
