//! Which values are chosen ("Paxos Made Simple", section 2.3).
#![tactic(auto)]

mod draft;
mod heard;
mod learner;
mod poll;
mod tallies;

pub use draft::Draft;
pub use heard::{Heard, run};
pub use learner::Learner;
