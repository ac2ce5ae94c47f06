//! Why a text is refused.

ghost use Rattle.std.specs.Prelude.{◌≡◌};

use fault_codes::Code;
use std::alloc::{AllocError, AllocFailed};

/// Why a text is no query.
#[derive(Clone, Copy, PartialEq, Eq, Debug)]
pub enum ParseFault {
    /// Memory was refused (1).
    Memory,
    /// The text has a static fault (2).
    Static(Code),
}

impl From<AllocError> for ParseFault {
    ghost use Rattle.query_tokens.specs.declared.fault.ParseFault.TheVariants.{Memory};

    ghost from_gives = { λ _ fault. fault ≡ Memory };

    fn from(_refused: AllocError) -> ParseFault {
        ParseFault::Memory
    }
}

impl<T: Drop> From<AllocFailed<T>> for ParseFault {
    ghost use Rattle.query_tokens.specs.declared.fault.ParseFault.TheVariants.{Memory};

    ghost from_gives = { λ _ fault. fault ≡ Memory };

    fn from(_refused: AllocFailed<T>) -> ParseFault {
        ParseFault::Memory
    }
}
