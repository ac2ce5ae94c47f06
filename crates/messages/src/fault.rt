//! Why bytes are no message.

ghost use Rattle.std.specs.Prelude.{◌≡◌};
ghost use Rattle.messages.specs.Reading.{fault_of};

use ballots::SpellingFault;

/// Why bytes are no message.
#[derive(Clone, Copy, PartialEq, Eq, Debug)]
pub enum WireFault {
    /// The bytes end inside a field (1).
    Short,
    /// They don't begin with the mark (2).
    Mark,
    /// No message is of that kind (3).
    Kind,
    /// A number, a sender, or a relation of numbers is out of range (4).
    Number,
    /// A text is not UTF-8 (5).
    NotUtf8,
    /// Bytes are left over after the message (6).
    LeftOver,
    /// Memory was refused (7).
    Memory,
}

impl From<SpellingFault> for WireFault {
    fn from(fault: SpellingFault) -> WireFault
        ensures { result ≡ fault_of fault }
    {
        match fault {
            SpellingFault::Short => WireFault::Short,
            SpellingFault::Number => WireFault::Number,
            SpellingFault::NotUtf8 => WireFault::NotUtf8,
            SpellingFault::Memory => WireFault::Memory,
        }
    }
}
