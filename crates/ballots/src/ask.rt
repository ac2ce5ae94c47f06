//! Questions of clients.

ghost use Rattle.std.specs.Prelude.{◌≡◌, false, true, ◌<◌, ◌≤◌, ◌↔◌, IfOk, IsErrOf, length};
ghost use Rattle.ballots.specs.Terms.{is_level, most_text};
ghost use Rattle.ballots.specs.Values.{positions};

use super::limits::{MOST_BYTES, POSITIONS, is_level};
use super::request::RequestId;
use std::alloc::Global;
use std::marker::Model;

/// Why a question is refused.
#[derive(Clone, Copy, PartialEq, Eq, Debug)]
pub enum AskFault {
    /// Memory was refused (1).
    Memory,
    /// The level is none that is known (2).
    Level,
    /// The text is longer than 4,096 bytes (3).
    TextTooLong,
    /// The floor is above 1,000,000 (4).
    Floor,
}

/// A question: who asks, its number, how many positions have to be applied, the language level of its text, and the text.
#[derive(Drop)]
pub struct Ask {
    id: RequestId,
    floor: u32,
    level: u8,
    text: String,
}

impl Model for Ask {
    ghost use Rattle.std.specs.Prelude.{◌≡◌, ◌≤◌, true, length, string_bytes};
    ghost use Rattle.ballots.specs.Terms.{Question, question_code, is_level, most_text};
    ghost use Rattle.ballots.specs.Values.{positions};

    ghost Value = { Question };

    ghost coded = { question_code };

    ghost view = { λ a.
        record {
          client = a.id.client;
          number = a.id.number;
          floor = a.floor;
          level = a.level;
          text = string_bytes a.text;
        } };

    ghost invariant = { λ a. (is_level a.level ≡ true) × (a.floor ≤ positions) × (length (string_bytes a.text) ≤ most_text) };
}

impl Ask {
    /// A question of that client, number, floor, level and text.
    ///
    /// It is refused where the level is unknown, then where the text is too long, then where the floor is too high.
    #[tactic(auto, unfolding(crate::specs::Values::positions))]
    pub fn new(
        alloc: Global,
        client: u32,
        number: u64,
        floor: u32,
        level: u8,
        text: &str,
    ) -> Result<Ask, AskFault>
        ensures made { IfOk result (λ q. q ≡ record { client = client; number = number; floor = floor; level = level; text = text.now }) }
        ensures level { IsErrOf result AskFault.Level ↔ (is_level level ≡ false) }
        ensures length { IsErrOf result AskFault.TextTooLong ↔ ((is_level level ≡ true) × (most_text < length text.now)) }
        ensures floor { IsErrOf result AskFault.Floor
            ↔ ((is_level level ≡ true) × (length text.now ≤ most_text) × (positions < floor)) }
    {
        if !is_level(level) {
            return Err(AskFault::Level);
        }
        if text.len() > MOST_BYTES {
            return Err(AskFault::TextTooLong);
        }
        if floor > POSITIONS {
            return Err(AskFault::Floor);
        }
        match String::from_str(alloc, text) {
            Ok(text) => Ok(Ask {
                id: RequestId { client, number },
                floor,
                level,
                text,
            }),
            Err(_) => Err(AskFault::Memory),
        }
    }

    /// Who asks, with the question's number.
    pub fn id(&self) -> RequestId
        ensures { result ≡ record { client = self.now.client; number = self.now.number } }
    {
        self.id
    }

    /// How many positions have to be applied, at most 1,000,000.
    pub fn floor(&self) -> u32
        ensures floor { result ≡ self.now.floor }
        ensures most { result ≤ positions }
    {
        self.floor
    }

    /// The language level of the text.
    pub fn level(&self) -> u8
        ensures level { result ≡ self.now.level }
        ensures known { is_level self.now.level ≡ true }
    {
        self.level
    }

    /// The text.
    pub fn text(&self) -> &str
        ensures text { result.now ≡ self.now.text }
        ensures most { length self.now.text ≤ most_text }
    {
        self.text.as_str()
    }
}
