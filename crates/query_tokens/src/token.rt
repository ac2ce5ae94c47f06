//! Tokens.

use super::kind::Kind;
use super::literal::IntegerLiteral;
use values::Text;

/// A token of a text (XQuery 1.0, appendix A.2).
#[derive(Drop)]
pub struct Token {
    /// What it is.
    pub kind: Kind,
    /// The name, the word or the content of the string; empty for others.
    pub text: Text,
    /// The number; 0 for others.
    pub number: IntegerLiteral,
}
