//! What a list of update primitives makes of a store, or of copies: the definitions, and laws of them. No code here applies one.
#![tactic(auto)]

pub mod laws;
