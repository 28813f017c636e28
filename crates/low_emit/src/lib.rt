//! The low module of a program of structured code.
#![tactic(auto)]
