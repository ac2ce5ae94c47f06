//! Why a proposer refuses.

ghost use Rattle.std.specs.Prelude.{◌≡◌};

use std::alloc::{AllocError, AllocFailed};

/// Why a proposer refuses. Nothing has changed then.
#[derive(Clone, Copy, PartialEq, Eq, Debug)]
pub enum ProposerFault {
    /// Memory was refused (1).
    Memory,
    /// It does not lead (2).
    NotLeading,
    /// There is no place (3): 16 proposals are open, no majority covers the next position, or positions are spent.
    NoPlace,
    /// Rounds are spent (4).
    NoRound,
}

impl From<AllocError> for ProposerFault {
    ghost use Rattle.proposer.specs.declared.fault.ProposerFault.TheVariants.{Memory};

    ghost from_gives = { λ _ fault. fault ≡ Memory };

    fn from(_refused: AllocError) -> ProposerFault {
        ProposerFault::Memory
    }
}

impl<T: Drop> From<AllocFailed<T>> for ProposerFault {
    ghost use Rattle.proposer.specs.declared.fault.ProposerFault.TheVariants.{Memory};

    ghost from_gives = { λ _ fault. fault ≡ Memory };

    fn from(_refused: AllocFailed<T>) -> ProposerFault {
        ProposerFault::Memory
    }
}
