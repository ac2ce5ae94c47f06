//! Why a site does not open.

/// Why a site does not open over a node.
#[derive(Clone, Copy, PartialEq, Eq, Debug)]
pub enum SiteFault {
    /// Memory was refused (1).
    Memory,
    /// There are not 1 to 64 readers (2).
    Count,
}
