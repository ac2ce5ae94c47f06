//! Atomic values and items, what compares and computes with them, and their printed text.
#![tactic(auto)]

mod atom;
mod compare;
mod fault;
mod laws;
mod lent;
mod limited_text;
mod operand;
mod operators;
mod paid;
mod print;
mod readings;
mod work;

pub use atom::{Atom, Item, atomize, atomize_item, truth};
pub use compare::{Comparison, compare_general, compare_texts, compare_value};
pub use fault::ValueFault;
pub use laws::examples;
pub use lent::{LentText, lent_text};
pub use limited_text::LimitedText;
pub use operators::{Operator, arithmetic, integer_operands};
pub use paid::paid_atom;
pub use print::push_item;
pub use readings::{read_boolean, read_integer};
pub use shared_texts::Text;
pub use work::{atom_work, text_work};
