//! When a typed program is that of a syntax tree.
#![tactic(auto)]
