//! Texts of few bytes, which stand in the value itself.

ghost use Rattle.std.specs.Prelude.{◌≡◌, ◌<◌, [], IfSome, IfNone, length};

use std::alloc::AllocError;
use std::marker::Model;
use std::str;

/// How many bytes such a text has at most: so many fit beside their number where a string stands in another text.
const MOST: usize = 30;

/// A text of at most 30 bytes, which takes no piece of memory of its own. Contracts see it as its bytes.
#[derive(Drop)]
pub(crate) struct ShortText {
    length: u8,
    bytes: [u8; MOST],
}

impl Model for ShortText {
    ghost use Rattle.std.specs.Prelude.{ℕ, List, ◌≤◌, take, IsUtf8};
    ghost use Rattle.std.specs.Coded.{coded_list, coded_ℕ};

    ghost Value = { List ℕ };

    ghost coded = { coded_list coded_ℕ };

    ghost view = { λ a. take a.length a.bytes };

    ghost invariant = { λ a. (a.length ≤ 30) × ∥ IsUtf8 (take a.length a.bytes) ∥₁ };
}

impl ShortText {
    /// The empty text.
    pub(crate) fn empty() -> ShortText
        ensures { result ≡ [] }
    {
        ShortText {
            length: 0,
            bytes: [0; MOST],
        }
    }

    /// A copy of a text, where it has at most 30 bytes.
    pub(crate) fn of(text: &str) -> Option<ShortText>
        ensures same { IfSome result (λ t. t ≡ text.now) }
        ensures longer { IfNone result (30 < length text.now) }
    {
        let length = text.len();
        if length > MOST {
            return None;
        }
        let mut bytes = [0; MOST];
        bytes[..length].copy_from_slice(text.as_bytes());
        Some(ShortText {
            length: length as u8,
            bytes,
        })
    }

    /// The text.
    pub(crate) fn as_str(&self) -> &str
        ensures { result.now ≡ self.now }
    {
        let text = &self.bytes[..self.length as usize];
        // These bytes are those of the text that was copied, so they are not looked at again.
        unsafe { str::from_utf8_unchecked(text) }
    }
}

impl Clone for ShortText {
    ghost is_clone = { λ t u. u ≡ t };

    fn clone(&self) -> Result<ShortText, AllocError> {
        Ok(ShortText {
            length: self.length,
            bytes: self.bytes,
        })
    }
}
