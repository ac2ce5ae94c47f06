//! The tokens of a query's text, or its first fault.
#![tactic(auto)]

mod characters;
mod fault;
mod kind;
mod laws;
mod lexer;
mod literal;
mod marks;
mod names;
mod references;
mod separators;
mod strings;
mod token;
mod tokens;
mod words;

pub use fault::ParseFault;
pub use kind::Kind;
pub use laws::examples;
pub use lexer::read_tokens;
pub use literal::IntegerLiteral;
pub use token::Token;
pub use tokens::Tokens;
pub use words::kind_of;
