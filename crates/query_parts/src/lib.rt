//! What expressions are read with: what is asked of the tokens that are left and taken off them, how tightly operators bind, the
//! steps of a path, lists, what parts make together, and what is held while what follows is read.
#![tactic(auto)]

pub mod cursor;
pub mod held;
pub mod lists;
mod looseness;
mod precedence;
pub mod steps;
pub mod whole;
pub mod words;

pub use looseness::Looseness;
pub use precedence::Precedence;
