//! Texts that are made piece by piece, and may not become longer than so many bytes.

ghost use Rattle.std.specs.Prelude.{◌≡◌, [], Some, OnOk, OnErr, option_map, string_bytes};
ghost use Rattle.std.specs.Char.{encode_utf8};
ghost use Rattle.values.specs.Limited.{added, is_none};

use std::alloc::{AllocError, Global};
use std::marker::Model;

/// A text of at most so many bytes, to which others are added at its end.
///
/// Once it would be longer it is none, and stays so: what is added then takes neither memory nor time.
#[derive(Drop)]
pub struct LimitedText {
    text: String,
    most: usize,
    is_too_long: bool,
}

impl Model for LimitedText {
    ghost use Rattle.std.specs.Prelude.{◌≤◌, length, string_bytes};
    ghost use Rattle.values.specs.Limited.{LimitedTerm, limited_code, text_of};

    ghost Value = { LimitedTerm };

    ghost coded = { limited_code };

    ghost view = { λ a. record { most = a.most; text = text_of a.is_too_long (string_bytes a.text) } };

    ghost invariant = { λ a. length (string_bytes a.text) ≤ a.most };
}

impl LimitedText {
    /// No text yet, and the most bytes that it may have. It takes no memory.
    pub fn new(alloc: Global, most: usize) -> LimitedText
        ensures { result ≡ record { most = most; text = Some [] } }
    {
        LimitedText {
            text: String::new(alloc),
            most,
            is_too_long: false,
        }
    }

    /// Adds a text. It fails where memory is refused, and is then as it was.
    #[tactic(auto, unfolding(crate::specs::Limited::added))]
    pub fn push(&mut self, text: &str) -> Result<(), AllocError>
        ensures pushed { OnOk result (self.new ≡ added self.old text.now) }
        ensures refused { OnErr result (self.new ≡ self.old) }
    {
        if self.is_too_long {
            return Ok(());
        }
        if self.most - self.text.len() < text.len() {
            self.is_too_long = true;
            return Ok(());
        }
        self.text.push_str(text)
    }

    /// Adds a character. It fails where memory is refused, and is then as it was.
    #[tactic(auto, unfolding(crate::specs::Limited::added))]
    pub fn push_char(&mut self, c: char) -> Result<(), AllocError>
        ensures pushed { OnOk result (self.new ≡ added self.old (encode_utf8 c)) }
        ensures refused { OnErr result (self.new ≡ self.old) }
    {
        if self.is_too_long {
            return Ok(());
        }
        if self.most - self.text.len() < c.len_utf8() {
            self.is_too_long = true;
            return Ok(());
        }
        self.text.push(c)
    }

    /// Whether it would be longer than it may be.
    pub fn is_too_long(&self) -> bool
        ensures { result ≡ is_none self.now.text }
    {
        self.is_too_long
    }

    /// Whatever it is, it is no longer than it may be: so nothing changes where nothing is added.
    pub(super) fn facts(&self)
        ensures { added self.now [] ≡ self.now }
    {
        let _most = self.most;
    }

    /// The text, or none where it would be longer than it may be.
    pub fn into_text(self) -> Option<String>
        ensures { option_map string_bytes result ≡ self.text }
    {
        if self.is_too_long {
            None
        } else {
            Some(self.text)
        }
    }
}
