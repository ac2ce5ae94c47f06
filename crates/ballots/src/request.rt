//! Requests of clients.

ghost use Rattle.std.specs.Prelude.{◌≡◌, false, true, ◌<◌, ◌≤◌, ◌↔◌, IfOk, IsErrOf, length};
ghost use Rattle.ballots.specs.Terms.{is_level, most_text, same_request};

use super::limits::{MOST_BYTES, is_level};
use std::alloc::{AllocError, Global};
use std::marker::Model;

/// Who made a request, and the number that the client gave it: the same pair is the same request.
#[derive(Clone, Copy, PartialEq, Eq, Hash, Debug)]
pub struct RequestId {
    /// The client's number.
    pub client: u32,
    /// The client's number for the request.
    pub number: u64,
}

/// Why a request is refused.
#[derive(Clone, Copy, PartialEq, Eq, Debug)]
pub enum RequestFault {
    /// Memory was refused (1).
    Memory,
    /// The level is none that is known (2).
    Level,
    /// The text is longer than 4,096 bytes (3).
    TextTooLong,
}

/// A request to change the store: who made it, its number, the language level of its text, and the text.
#[derive(Drop)]
pub struct Request {
    id: RequestId,
    level: u8,
    text: String,
}

impl Model for Request {
    ghost use Rattle.std.specs.Prelude.{◌≡◌, ◌≤◌, true, length, string_bytes};
    ghost use Rattle.ballots.specs.Terms.{Request as RequestTerm, request_code, is_level, most_text};

    ghost Value = { RequestTerm };

    ghost coded = { request_code };

    ghost view = { λ a.
        record {
          client = a.id.client;
          number = a.id.number;
          level = a.level;
          text = string_bytes a.text;
        } };

    ghost invariant = { λ a. (is_level a.level ≡ true) × (length (string_bytes a.text) ≤ most_text) };
}

impl Request {
    /// A request of that client, number, level and text.
    ///
    /// It is refused where the level is unknown, then where the text is too long.
    pub fn new(
        alloc: Global,
        client: u32,
        number: u64,
        level: u8,
        text: &str,
    ) -> Result<Request, RequestFault>
        ensures made { IfOk result (λ r. r ≡ record { client = client; number = number; level = level; text = text.now }) }
        ensures level { IsErrOf result RequestFault.Level ↔ (is_level level ≡ false) }
        ensures length { IsErrOf result RequestFault.TextTooLong ↔ ((is_level level ≡ true) × (most_text < length text.now)) }
    {
        if !is_level(level) {
            return Err(RequestFault::Level);
        }
        if text.len() > MOST_BYTES {
            return Err(RequestFault::TextTooLong);
        }
        match String::from_str(alloc, text) {
            Ok(text) => Ok(Request {
                id: RequestId { client, number },
                level,
                text,
            }),
            Err(_) => Err(RequestFault::Memory),
        }
    }

    /// Who made it, with its number.
    pub fn id(&self) -> RequestId
        ensures { result ≡ record { client = self.now.client; number = self.now.number } }
    {
        self.id
    }

    /// The language level of the text.
    pub fn level(&self) -> u8
        ensures level { result ≡ self.now.level }
        ensures known { is_level self.now.level ≡ true }
    {
        self.level
    }

    /// The text.
    pub fn text(&self) -> &str
        ensures text { result.now ≡ self.now.text }
        ensures most { length self.now.text ≤ most_text }
    {
        self.text.as_str()
    }

    /// Whether the two agree in all four: client, number, level and text.
    pub fn is_same(&self, other: &Request) -> bool
        ensures { result ≡ same_request self.now other.now }
    {
        other.id == self.id && other.level == self.level && other.text == self.text
    }
}

impl Clone for Request {
    ghost is_clone = { λ r s. s ≡ r };

    fn clone(&self) -> Result<Request, AllocError> {
        Ok(Request {
            id: self.id,
            level: self.level,
            text: self.text.clone()?,
        })
    }
}
