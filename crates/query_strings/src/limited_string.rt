//! Texts that are made piece by piece.

ghost use Rattle.std.specs.Prelude.{◌≡◌, [], ◌++◌, OnOk, OnErr, IfOk, IfErr, Ok};
ghost use Rattle.query_meaning.specs.Strings.{limited};
ghost use Rattle.evaluation.specs.Gives.{Fails, Judged};

use data_model::limits::MOST_BYTES;
use fault_codes::Code;
use std::alloc::{AllocError, Global};
use std::marker::Model;
use values::{Text, ValueFault};

/// A text of at most 65,536 bytes, to which others are added at its end. Contracts see it as its bytes.
#[derive(Drop)]
pub struct LimitedString {
    text: String,
}

impl Model for LimitedString {
    ghost use Rattle.std.specs.Prelude.{ℕ, List, ◌≤◌, length, string_bytes};
    ghost use Rattle.std.specs.Coded.{coded_list, coded_ℕ};
    ghost use Rattle.data_model.specs.Limits.{most_bytes};

    ghost Value = { List ℕ };

    ghost coded = { coded_list coded_ℕ };

    ghost view = { λ a. string_bytes a.text };

    ghost invariant = { λ a. length (string_bytes a.text) ≤ most_bytes };
}

impl LimitedString {
    /// No text. It takes no memory.
    pub fn new(alloc: Global) -> LimitedString
        ensures { result ≡ [] }
    {
        LimitedString {
            text: String::new(alloc),
        }
    }

    /// Adds a text. Faults: `Memory`; `Code` with PXQ0002 where the text would be longer than 65,536 bytes. At a fault it stays as it was.
    pub fn push(&mut self, text: &str) -> Result<(), ValueFault>
        ensures pushed { OnOk result (limited (self.old ++ text.now) ≡ Ok self.new) }
        ensures code { IfErr result (λ fault. Fails (limited (self.old ++ text.now)) fault) }
        ensures refused { OnErr result (self.new ≡ self.old) }
        ensures judged { Judged (limited (self.old ++ text.now)) result }
    {
        if MOST_BYTES - self.text.len() < text.len() {
            return Err(ValueFault::Code(Code::PXQ0002));
        }
        self.text.push_str(text)?;
        Ok(())
    }

    /// The text.
    pub fn as_str(&self) -> &str
        ensures { result.now ≡ self.now }
    {
        &self.text
    }

    /// The text, which clones share. It fails where memory is refused.
    pub fn into_text(self, alloc: Global) -> Result<Text, AllocError>
        ensures { IfOk result (λ t. t ≡ self) }
    {
        let LimitedString { text } = self;
        Text::shared(alloc, text)
    }
}
