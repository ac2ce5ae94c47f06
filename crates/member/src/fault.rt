//! Why a member refuses.

ghost use Rattle.std.specs.Prelude.{◌≡◌};

use std::alloc::{AllocError, AllocFailed};

/// Why a member drafts nothing. Nothing that shows has changed then.
#[derive(Clone, Copy, PartialEq, Eq, Debug)]
pub enum MemberFault {
    /// Memory was refused (1).
    Memory,
    /// Positions or rounds are spent (2), so that no ballot begins.
    Spent,
}

impl From<AllocError> for MemberFault {
    ghost use Rattle.member.specs.declared.fault.MemberFault.TheVariants.{Memory};

    ghost from_gives = { λ _ fault. fault ≡ Memory };

    fn from(_refused: AllocError) -> MemberFault {
        MemberFault::Memory
    }
}

impl<T: Drop> From<AllocFailed<T>> for MemberFault {
    ghost use Rattle.member.specs.declared.fault.MemberFault.TheVariants.{Memory};

    ghost from_gives = { λ _ fault. fault ≡ Memory };

    fn from(_refused: AllocFailed<T>) -> MemberFault {
        MemberFault::Memory
    }
}
