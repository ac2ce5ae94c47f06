//! What is held while something else is looked for.
//!
//! Where that fails, what is held is dropped here, in a function over any type: the proof of a function that drops an expression or a
//! draft itself is many times as dear.
#![tactic(auto)]

mod held;

pub use held::beside;
