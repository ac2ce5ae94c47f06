//! Why a node refuses.

ghost use Rattle.std.specs.Prelude.{◌≡◌};

use member::MemberFault;
use messages::WireFault;
use std::alloc::{AllocError, AllocFailed};

/// Why a node takes no step.
#[derive(Clone, Copy, PartialEq, Eq, Debug)]
pub enum NodeFault {
    /// The bytes are no message (1), for this reason.
    Wire(WireFault),
    /// The message is of another group, from or about a member that there is not, or of a kind that goes to clients (2).
    Stranger,
    /// Memory was refused (3).
    Memory,
    /// The store failed, and the node has stopped (4).
    Store,
    /// The node has stopped before (5).
    Stopped,
    /// Positions or rounds are spent, so that no ballot begins (6).
    Spent,
}

/// Why a node does not open.
#[derive(Clone, Copy, PartialEq, Eq, Debug)]
pub enum OpenFault {
    /// Memory was refused (3).
    Memory,
    /// The store failed (4).
    Store,
}

impl From<AllocError> for NodeFault {
    ghost use Rattle.node.specs.declared.fault.NodeFault.TheVariants.{Memory};

    ghost from_gives = { λ _ fault. fault ≡ Memory };

    fn from(_refused: AllocError) -> NodeFault {
        NodeFault::Memory
    }
}

impl<T: Drop> From<AllocFailed<T>> for NodeFault {
    ghost use Rattle.node.specs.declared.fault.NodeFault.TheVariants.{Memory};

    ghost from_gives = { λ _ fault. fault ≡ Memory };

    fn from(_refused: AllocFailed<T>) -> NodeFault {
        NodeFault::Memory
    }
}

impl From<MemberFault> for NodeFault {
    ghost use Rattle.node.specs.Nodes.{fault_of};

    ghost from_gives = { λ old fault. fault ≡ fault_of old };

    fn from(fault: MemberFault) -> NodeFault {
        match fault {
            MemberFault::Memory => NodeFault::Memory,
            MemberFault::Spent => NodeFault::Spent,
        }
    }
}
