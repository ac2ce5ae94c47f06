//! Why a value is not made.

ghost use Rattle.std.specs.Prelude.{◌≡◌};

use fault_codes::Code;
use std::alloc::{AllocError, AllocFailed};
use trees::MakeFault;

/// Why a value is not made.
#[derive(Clone, Copy, PartialEq, Eq, Debug)]
pub enum ValueFault {
    /// Memory was refused (1).
    Memory,
    /// The evaluation ends in a fault (2).
    Code(Code),
}

impl From<AllocError> for ValueFault {
    ghost use Rattle.values.specs.declared.fault.ValueFault.TheVariants.{Memory};

    ghost from_gives = { λ _ fault. fault ≡ Memory };

    fn from(_refused: AllocError) -> ValueFault {
        ValueFault::Memory
    }
}

impl<T: Drop> From<AllocFailed<T>> for ValueFault {
    ghost use Rattle.values.specs.declared.fault.ValueFault.TheVariants.{Memory};

    ghost from_gives = { λ _ fault. fault ≡ Memory };

    fn from(_refused: AllocFailed<T>) -> ValueFault {
        ValueFault::Memory
    }
}

impl From<Code> for ValueFault {
    ghost use Rattle.values.specs.declared.fault.ValueFault.TheVariants as fault;

    ghost from_gives = { λ code result. result ≡ fault.Code code };

    fn from(code: Code) -> ValueFault {
        ValueFault::Code(code)
    }
}

/// Where no more identities are left (2^62 of them were given away), the fault is that of too many nodes, PXQ0003.
impl From<MakeFault> for ValueFault {
    ghost use Rattle.values.specs.Faults.{of_making};

    ghost from_gives = { λ made result. result ≡ of_making made };

    fn from(fault: MakeFault) -> ValueFault {
        match fault {
            MakeFault::Memory => ValueFault::Memory,
            MakeFault::Limit => ValueFault::Code(Code::PXQ0003),
        }
    }
}
