//! The limits that all members hold to (our own choice). Contracts speak of them by `specs/`.

ghost use Rattle.std.specs.Prelude.{◌≡◌, ◌↔◌, IsTrue};
ghost use Rattle.ballots.specs.Terms.{is_level};
ghost use Rattle.ballots.specs.Values.{IsPosition};

/// Positions are 1 to this; each is an instance of the algorithm.
pub const POSITIONS: u32 = 1_000_000;

/// Rounds are 1 to this.
pub const LAST_ROUND: u64 = (1 << 40) - 1;

/// Members are 1 to at most this.
pub const MOST_MEMBERS: u8 = 63;

/// The votes that a window has at most.
pub const MOST_ENTRIES: usize = 8;

/// Levels of the language are 1 to this.
pub const MOST_LEVEL: u8 = 2;

/// The bytes that the text of a request or a question has at most.
pub const MOST_BYTES: usize = 4096;

/// The bytes that the text of an answer has at most.
pub const MOST_ANSWER: usize = 32_768;

/// The proposals that a leader has open at most.
pub const MOST_OPEN: usize = 16;

/// Whether there is such a position: 1 to 1,000,000.
#[tactic(auto, unfolding(crate::specs::Values::positions))]
pub fn is_position(position: u32) -> bool
    ensures { IsTrue result ↔ IsPosition position }
{
    1 <= position && position <= POSITIONS
}

/// Whether there is a language of that level: 1, or 2, at which there is `copy .. modify .. return` too.
pub fn is_level(level: u8) -> bool
    ensures { result ≡ is_level level }
{
    1 <= level && level <= MOST_LEVEL
}
