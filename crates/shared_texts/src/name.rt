//! The names of nodes, which rows share.

ghost use Rattle.std.specs.Prelude.{◌≡◌, [], string_bytes, IfOk};

use std::alloc::{AllocError, Global};
use std::collections::HashMap;
use std::marker::Model;
use std::sync::Arc;

/// At most so many names are held for rows to come.
const MOST: usize = 1024;

/// The text of a name, as it is kept: two words, since most of a row's room is its own.
#[derive(Drop)]
enum Held {
    Empty,
    Shared(Arc<String>),
}

/// The name of a node, empty where its kind has none. A clone shares it, and takes no memory.
pub struct Name {
    text: Held,
}

// By one call, whose contract is all that a caller's proof sees of it.
impl Drop for Name {
    fn drop(self) {
        let Name { text: _ } = self;
    }
}

impl Model for Name {
    ghost use Rattle.std.specs.Prelude.{ℕ, List};
    ghost use Rattle.std.specs.Coded.{coded_list, coded_ℕ};

    ghost Value = { List ℕ };

    ghost coded = { coded_list coded_ℕ };

    ghost use Rattle.shared_texts.specs.Named.{bytes_of};

    ghost view = { λ a. bytes_of a.text };
}

impl Name {
    /// The empty name. It takes no memory.
    pub fn empty() -> Name
        ensures { result ≡ [] }
    {
        Name { text: Held::Empty }
    }

    /// A name, which its clones share. It fails where memory is refused, for which an empty one does not ask.
    pub fn new(text: String) -> Result<Name, AllocError>
        ensures { IfOk result (λ name. name ≡ string_bytes text) }
    {
        if text.is_empty() {
            return Ok(Name::empty());
        }
        let alloc = *text.allocator();
        let text = Arc::new(alloc, text)?;
        Ok(Name {
            text: Held::Shared(text),
        })
    }

    /// The text.
    pub fn as_str(&self) -> &str
        ensures value { result.now ≡ self.now }
    {
        match &self.text {
            Held::Empty => "",
            Held::Shared(text) => text.as_str(),
        }
    }
}

impl Clone for Name {
    ghost is_clone = { λ name copy. copy ≡ name };

    fn clone(&self) -> Result<Name, AllocError> {
        let text = match &self.text {
            Held::Empty => Held::Empty,
            Held::Shared(text) => Held::Shared(text.clone()?),
        };
        Ok(Name { text })
    }
}

/// Names that rows to come share with those that came before. What it holds shows in no result.
pub struct Names {
    held: HashMap<String, Name>,
    /// The one that was asked for last: nodes of one name mostly come one after the other.
    last: Name,
    alloc: Global,
}

// By one call, whose contract is all that a caller's proof sees of it.
impl Drop for Names {
    fn drop(self) {
        let Names {
            held: _,
            last: _,
            alloc: _,
        } = self;
    }
}

impl Model for Names {
    ghost Value = { Unit {0} };

    ghost view = { λ _. tt };
}

impl Names {
    /// No names.
    pub fn new(alloc: Global) -> Names {
        Names {
            held: HashMap::new(alloc),
            last: Name::empty(),
            alloc,
        }
    }

    /// None of the names, as another begins.
    pub fn emptied(&self) -> Names {
        Names::new(self.alloc)
    }

    /// The name of a text, which rows of that name share. It fails where memory is refused.
    pub fn name(&mut self, text: &str) -> Result<Name, AllocError>
        ensures { IfOk result (λ name. name ≡ text.now) }
    {
        if text.is_empty() {
            return Ok(Name::empty());
        }
        if self.last.as_str() == text {
            return self.last.clone();
        }
        let name = self.held_name(text)?;
        self.last = name.clone()?;
        Ok(name)
    }

    /// The same, of a text that is not empty and was not asked for last.
    fn held_name(&mut self, text: &str) -> Result<Name, AllocError>
        ensures { IfOk result (λ name. name ≡ text.now) }
    {
        if let Some(name) = self.held.get(text) {
            // It is that name; compared, so that nothing has to be known of the map.
            if name.as_str() == text {
                return name.clone();
            }
        }
        let name = Name::new(String::from_str(self.alloc, text)?)?;
        self.hold(text, name.clone()?)?;
        Ok(name)
    }

    /// Holds one more name. Where there are many, the others are let go, so that names no longer used do not add up.
    fn hold(&mut self, text: &str, name: Name) -> Result<(), AllocError> {
        if self.held.len() >= MOST {
            self.held.clear();
        }
        self.held.insert(String::from_str(self.alloc, text)?, name)?;
        Ok(())
    }
}
