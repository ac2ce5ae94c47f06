//! Why a write is not acknowledged.

/// Why a write is not acknowledged.
#[derive(Clone, Copy, PartialEq, Eq, Debug)]
pub enum WriteFault {
    /// Memory was refused: the record is as it was.
    Memory,
    /// The store failed: the record is the old one or the new one.
    Store,
    /// Memory was refused, and again where it was to be seen whether the connection is still open: if it is, the record is as it was, and
    /// else the old one or the new one.
    Unseen,
}
