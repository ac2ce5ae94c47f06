//! Texts of queries and updates as expressions, or their first static fault (XQuery 1.0, section 2.2.3.1).
#![tactic(auto)]

pub mod laws;
mod passes;

pub use passes::parse;
pub use query_grammar::{
    Binary, Binding, Clause, Expr, KindTest, Name, NodeTest, Operation, Place, Quantifier, Sign,
    SortKey,
};
pub use query_tokens::ParseFault;
pub use static_checks::{Category, category};
