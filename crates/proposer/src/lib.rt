//! Proposals under a ballot ("Paxos Made Simple", sections 2.2 and 3): one first phase for many positions.
#![tactic(auto)]

mod draft;
mod fault;
pub mod laws;
mod lead;
mod proposer;
mod reported;
mod sends;
mod view;

pub use draft::Draft;
pub use fault::ProposerFault;
pub use proposer::Proposer;
pub use sends::{Asked, Sends};
