//! Why a reader gives no answer.

/// Why a reader gives no answer.
#[derive(Clone, Copy, PartialEq, Eq, Debug)]
pub enum ReadFault {
    /// Memory was refused (1). The reader may have seen more.
    Memory,
    /// The text is longer than that of a question may be, 4,096 bytes (2).
    Long,
    /// The store was closed, or nothing is shown that goes as far as the reader has seen, or the reader found no place at the store (3).
    Closed,
}
