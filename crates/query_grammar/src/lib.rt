//! Expressions, and the grammar that says which tokens are spelt so.
#![tactic(auto)]

mod ast;
mod functions;
pub mod laws;

pub use ast::{
    Binary, Binding, Clause, Expr, KindTest, Name, NodeTest, Operation, Place, Quantifier, Sign,
    SortKey,
};
pub use functions::Function;
pub use query_tokens::IntegerLiteral;
