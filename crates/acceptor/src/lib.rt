//! One acceptor, over any store for its record.
#![tactic(auto)]

mod acceptor;
mod draft;

pub use acceptor::Acceptor;
pub use draft::Draft;
