//! Texts that rows and values share.

ghost use Rattle.std.specs.Prelude.{◌≡◌, ◌++◌, [], IfOk, OnOk, OnErr, string_bytes};

use super::short_text::ShortText;
use std::alloc::{AllocError, Global};
use std::marker::Model;
use std::sync::Arc;

/// The text of a node or a value, or a name. Contracts see it as its bytes.
///
/// A text of at most 30 bytes takes no piece of memory, and nor does a clone of it. A longer one that is made as `of` or `shared` costs one more
/// piece of memory, and a clone of it copies no bytes.
pub struct Text(Kept);

// By one call, whose contract is all that a caller's proof sees of it.
impl Drop for Text {
    fn drop(self) {
        let Text(_) = self;
    }
}

/// Where the bytes are.
#[derive(Drop)]
enum Kept {
    /// Here alone.
    Alone(String),
    /// Where the clones have them too.
    Shared(Arc<String>),
    /// In the value itself.
    Short(ShortText),
}

impl Model for Text {
    ghost use Rattle.std.specs.Prelude.{ℕ, List};
    ghost use Rattle.std.specs.Coded.{coded_list, coded_ℕ};
    ghost use Rattle.shared_texts.specs.Inside.{bytes_of};

    ghost Value = { List ℕ };

    ghost coded = { coded_list coded_ℕ };

    ghost view = { λ a. bytes_of a.0 };
}

impl Text {
    /// The empty text. It takes no memory.
    pub fn empty() -> Text
        ensures { result ≡ [] }
    {
        Text(Kept::Short(ShortText::empty()))
    }

    /// The text of a string.
    pub fn new(text: String) -> Text
        ensures { result ≡ string_bytes text }
    {
        match ShortText::of(text.as_str()) {
            Some(short) => Text(Kept::Short(short)),
            None => Text(Kept::Alone(text)),
        }
    }

    /// The text of a string, which clones share. It fails where memory is refused.
    pub fn shared(alloc: Global, text: String) -> Result<Text, AllocError>
        ensures { IfOk result (λ t. t ≡ string_bytes text) }
    {
        match ShortText::of(text.as_str()) {
            Some(short) => Ok(Text(Kept::Short(short))),
            None => share(alloc, text),
        }
    }

    /// A copy of a text, which clones share. It fails where memory is refused, which a text of at most 30 bytes does not ask for.
    pub fn of(alloc: Global, text: &str) -> Result<Text, AllocError>
        ensures { IfOk result (λ t. t ≡ text.now) }
    {
        match ShortText::of(text) {
            Some(short) => Ok(Text(Kept::Short(short))),
            None => share(alloc, String::from_str(alloc, text)?),
        }
    }

    /// Adds a text at its end. Where memory is refused, it stays as it was.
    pub fn push_str(&mut self, alloc: Global, text: &str) -> Result<(), AllocError>
        ensures pushed { OnOk result (self.new ≡ self.old ++ text.now) }
        ensures refused { OnErr result (self.new ≡ self.old) }
    {
        if let Kept::Alone(longer) = &mut self.0 {
            return longer.push_str(text);
        }
        let mut longer = String::from_str(alloc, self.as_str())?;
        longer.push_str(text)?;
        self.0 = Kept::Alone(longer);
        Ok(())
    }

    /// An equal text, whose clones copy no bytes. It fails where memory is refused.
    pub fn to_shared(&self) -> Result<Text, AllocError>
        ensures { IfOk result (λ t. t ≡ self.now) }
    {
        match &self.0 {
            Kept::Alone(text) => Text::of(*text.allocator(), text.as_str()),
            Kept::Shared(_) | Kept::Short(_) => self.clone(),
        }
    }

    /// The text.
    pub fn as_str(&self) -> &str
        ensures { result.now ≡ self.now }
    {
        match &self.0 {
            Kept::Alone(text) => text.as_str(),
            Kept::Shared(text) => text.as_str(),
            Kept::Short(text) => text.as_str(),
        }
    }
}

/// The text of a string, where the clones have it too.
fn share(alloc: Global, text: String) -> Result<Text, AllocError>
    ensures { IfOk result (λ t. t ≡ string_bytes text) }
{
    let shared = Arc::new(alloc, text)?;
    Ok(Text(Kept::Shared(shared)))
}

impl Clone for Text {
    ghost is_clone = { λ t u. u ≡ t };

    fn clone(&self) -> Result<Text, AllocError> {
        Ok(Text(match &self.0 {
            Kept::Alone(text) => Kept::Alone(text.clone()?),
            Kept::Shared(text) => Kept::Shared(text.clone()?),
            Kept::Short(text) => Kept::Short(text.clone()?),
        }))
    }
}
