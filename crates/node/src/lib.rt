//! One node of a group: from received bytes to sent bytes, over any records and any application. Nothing here waits, sends or receives.
#![tactic(auto)]

mod answers;
mod applying;
mod draft;
mod fault;
mod node;
mod outbox;
mod spelling;
mod steps;

pub use ballots::Setup;
pub use draft::Draft;
pub use fault::{NodeFault, OpenFault};
pub use node::Node;
pub use outbox::{Outbox, Reading, Sent};
