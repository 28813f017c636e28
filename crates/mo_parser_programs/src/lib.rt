//! What a program is read as from left to right, and that this is exactly what the grammar has.
#![tactic(auto)]
