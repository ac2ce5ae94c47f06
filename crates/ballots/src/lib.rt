//! Ballots, members, requests, values, replies and messages: what members agree on, and what they say to each other.
//!
//! Contracts speak of them by `specs/`, on which the protocol's definitions stand.
#![tactic(auto)]

mod ask;
mod ballot;
pub mod laws;
pub mod limits;
mod message;
mod reply;
mod request;
mod setup;
mod spelling;
mod value;

pub use ask::{Ask, AskFault};
pub use ballot::{Ballot, Members};
pub use message::{Message, Window};
pub use reply::{Answer, Reply};
pub use request::{Request, RequestFault, RequestId};
pub use setup::{Setup, SetupFault};
pub use spelling::{SpellingFault, put_value, take_value};
pub use value::{Entry, Pair, Value, Vote};
