//! The functions of the language (XQuery 1.0 and XPath 2.0 Functions and Operators), and their calls.
//!
//! Contracts speak of the definition of what a call means.
#![tactic(auto)]

mod argument_values;
mod calls;
mod distinct;
mod focus;
mod items;
mod joined;
mod nodes;
mod sequences;
mod strings;
mod sums;
mod table;
mod truths;

pub use calls::Calls;
pub use distinct::distinct_values;
pub use focus::{last, position};
pub use items::{count, data, empty, exists, reverse};
pub use joined::string_join;
pub use nodes::{doc, name, root, string};
pub use strings::{concat, contains, ends_with, starts_with, string_length};
pub use sums::sum;
pub use table::applied;
pub use truths::{boolean, not, truth_value};
