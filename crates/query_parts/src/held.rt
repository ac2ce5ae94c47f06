//! What was read, while what follows it is read.
//!
//! Where that fails, what was read is dropped here, in functions over any type: the proof of a function that drops an expression itself
//! is many times as dear.

ghost use Rattle.std.specs.Prelude.{◌≡◌, IfOk, IfErr};
ghost use Rattle.query_parts.specs.Gives.{Gives, GivesLast};
ghost use Rattle.query_parts.specs.Held.{followed};
ghost use Rattle.query_tokens.specs.declared.fault.ParseFault.TheVariants.{Memory};

use crate::cursor::{REFUSED, eat};
use query_tokens::{Kind, ParseFault, Tokens};
use sqlite_items::Boxed;
use std::alloc::{AllocError, Global};

/// What was read, once the next token is taken, which must be of this kind.
///
/// Codes: `Static(XPST0003)` where the next token is of another kind, or there is none; what was read is dropped.
pub fn followed<T: Drop>(read: T, tokens: &mut Tokens, kind: Kind) -> Result<T, ParseFault>
    ensures { Gives (followed read kind tokens.old) result tokens.new }
{
    eat(tokens, kind)?;
    Ok(read)
}

/// A value in a box.
///
/// Codes: `Memory` where memory is refused; the value is dropped.
pub fn boxed<T: Drop>(alloc: Global, value: T) -> Result<Boxed<T>, ParseFault>
    ensures ok { IfOk result (λ found. found ≡ value) }
    ensures err { IfErr result (λ fault. fault ≡ Memory) }
{
    Ok(Boxed::new(alloc, value)?)
}

/// What was read, if no token is left.
///
/// Codes: `Static(XPST0003)` where tokens are left; what was read is dropped.
pub fn last<T: Drop>(read: T, tokens: &Tokens) -> Result<T, ParseFault>
    ensures { GivesLast read tokens.now result }
{
    if tokens.left() == 0 {
        Ok(read)
    } else {
        Err(REFUSED)
    }
}
