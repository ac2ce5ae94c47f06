//! The number that spellings rest on (our own choice). Contracts speak of it by `specs/`.

/// `PXQ1`, the first bytes of each message.
pub(super) const MARK: u32 = 0x5058_5131;
