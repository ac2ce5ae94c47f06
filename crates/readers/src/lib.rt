//! A node whose state readers see, each in a thread of its own, without waiting.
#![tactic(auto)]

mod fault;
mod handing;
mod input;
mod laws;
mod opening;
mod site;

pub use fault::SiteFault;
pub use input::Input;
pub use laws::every_sight_is_chosen;
pub use site::{Site, SiteOver};
