//! One member of the group, as a step machine over messages: its acceptor, its proposer and its learner. Nothing here waits, sends or receives.
#![tactic(auto)]

mod draft;
mod fault;
mod hearing;
mod input;
mod learnt;
mod member;
mod outcome;
mod sends;
mod steps;
mod told;

pub use draft::Draft;
pub use fault::MemberFault;
pub use input::{Input, Tick};
pub use member::Member;
pub use outcome::{Outcome, Send, Target};
