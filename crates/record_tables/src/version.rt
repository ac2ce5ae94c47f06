//! The versions of a record's tables.

ghost use Rattle.std.specs.Prelude.{◌≡◌};
ghost use Rattle.record_tables.specs.Versions.{number_of};

/// A version of the tables of a record.
#[derive(Clone, Copy, PartialEq, Eq, Debug)]
pub enum Version {
    /// The member's table and that of its votes.
    First,
    /// These, and the table of the values kept as learnt.
    Second,
}

impl Version {
    /// The number of the version, as the member's row has it.
    pub fn number(self) -> u32
        ensures { result ≡ number_of self }
    {
        match self {
            Version::First => 1,
            Version::Second => 2,
        }
    }
}
