//! The straight run of any number of members: one begins, a request is submitted to it, and all messages are delivered in order.
#![tactic(auto)]

pub mod laws;
