//! Values by key.

ghost use Rattle.std.specs.Prelude.{◌≡◌, ◌≤◌, ◌+◌, ◌^◌, [], length, ℕ, Some, None, IfSome, IfNone, IfOk, OnOk, OnErr, option_copied, is_some, IsSome};
ghost use Rattle.std.specs.Borrow.{sem};
ghost use Rattle.std.specs.Map.{keys_of};
ghost use Rattle.std.specs.Option.{option_copied_mut};
ghost use Rattle.row_pages.specs.Rows.{entries, spare, get, Changes};

use super::cursor::Cursor;
use super::hasher::PageHashes;
use super::index::{append, remove_key, shrink_list};
use super::pages::{Pages, number, number_or_add, shrink_pages};
use std::alloc::{AllocError, Global};
use std::collections::HashMap;
use std::marker::Model;
use std::mem;

/// Values by key, for keys of which many are neighbours: a look-up reads a small table, a number beside those of the key's neighbours, and the value.
#[derive(Drop)]
pub struct RowPages<V: Drop> {
    /// For each key, where its value stands: 0 for none, else one more than the index.
    pages: Pages,
    keys: Vec<u64>,
    values: Vec<V>,
}

impl<V: Drop> Model for RowPages<V> {
    ghost use Rattle.std.specs.Prelude.{vec_len, vec_capacity};
    ghost use Rattle.std.specs.List.{zip};
    ghost use Rattle.std.specs.HashMap.{spare};
    ghost use Rattle.row_pages.specs.Pages.{number_of};
    ghost use Rattle.row_pages.specs.Index.{IsPaged, room_in};
    ghost use Rattle.row_pages.specs.Rows.{Term};

    ghost Value = { Term V };

    ghost view = { λ m. (zip m.keys.items m.values.items, room_in (spare m.pages) (vec_capacity m.keys) (vec_capacity m.values) (vec_len m.keys)) };

    ghost invariant = { λ m. IsPaged (number_of m.pages) m.keys.items m.values.items };
}

impl<V: Drop> RowPages<V> {
    ghost use Rattle.row_pages.specs.Lends.{lends_get, lends_value};

    /// No values.
    pub fn new(alloc: Global) -> RowPages<V>
        ensures { entries result ≡ [] }
    {
        RowPages {
            pages: HashMap::with_hasher(alloc, PageHashes),
            keys: Vec::new(alloc),
            values: Vec::new(alloc),
        }
    }

    /// How many values there are.
    pub fn len(&self) -> usize
        ensures { result ≡ length (entries self.now) }
    {
        self.keys.len()
    }

    /// The keys that have values, in the order of the entries.
    pub fn keys(&self) -> &[u64]
        ensures { result.now ≡ keys_of (entries self.now) }
    {
        self.keys.as_slice()
    }

    /// The value of a key.
    pub fn get(&self, key: u64) -> Option<&V>
        ensures { option_copied result ≡ get self.now key }
    {
        let number = number(&self.pages, key);
        if number == 0 {
            return None;
        }
        Some(&self.values[number as usize - 1])
    }

    /// The value of a key that has one.
    pub fn value(&self, key: u64) -> &V
        requires { IsSome (get self.now key) }
        ensures { get self.now key ≡ Some result.now }
    {
        let at = number(&self.pages, key) as usize - 1;
        &self.values[at]
    }

    /// What looks values up one after the other.
    pub fn cursor(&self) -> Cursor<'_, V>
        ensures { result ≡ self.now }
    {
        Cursor::new(&self.pages, &self.keys, &self.values)
    }

    /// Whether a key has a value.
    pub fn contains_key(&self, key: u64) -> bool
        ensures { result ≡ is_some (get self.now key) }
    {
        number(&self.pages, key) > 0
    }

    /// Makes room for so many more keys. The values stay as they were, also where memory is refused.
    pub fn reserve(&mut self, additional: usize) -> Result<(), AllocError>
        ensures same { entries self.new ≡ entries self.old }
        ensures room { OnOk result (additional ≤ spare self.new) }
        ensures kept { spare self.old ≤ spare self.new }
    {
        let most = u32::MAX as usize;
        if self.keys.len() > most || additional > most - self.keys.len() {
            return Err(AllocError);
        }
        self.pages.reserve(additional)?;
        self.keys.reserve(additional)?;
        self.values.reserve(additional)
    }

    /// Gives back room where there is more than four times what stands, and keeps twice that. The values stay as they were. Where less memory is
    /// refused, the room stays too.
    pub fn shrink(&mut self)
        ensures { entries self.new ≡ entries self.old }
    {
        shrink_pages(&mut self.pages);
        shrink_list(&mut self.keys);
        shrink_list(&mut self.values);
    }

    /// Gives a key a value in the place of another, or of none, and gives what stood there. It takes no memory.
    pub fn put(&mut self, key: u64, value: V) -> Option<V>
        requires room { 1 ≤ spare self.old }
        ensures was { result ≡ get self.old key }
        ensures put { Changes key (Some value) self.old self.new }
        ensures room { spare self.old ≤ spare self.new + 1 }
    {
        let next = self.keys.len() as u32 + 1;
        let number = number_or_add(&mut self.pages, key, next);
        if number > 0 {
            return Some(mem::replace(&mut self.values[number as usize - 1], value));
        }
        append(&mut self.keys, key);
        append(&mut self.values, value);
        None
    }

    /// Gives a key a value in the place of another, or of none, and gives what stood there. Where memory is refused, the values stay as they were.
    pub fn insert(&mut self, key: u64, value: V) -> Result<Option<V>, AllocError>
        ensures was { IfOk result (λ was. was ≡ get self.old key) }
        ensures put { OnOk result (Changes key (Some value) self.old self.new) }
        ensures refused { OnErr result (entries self.new ≡ entries self.old) }
        ensures room { spare self.old ≤ spare self.new + 1 }
    {
        self.reserve(1)?;
        Ok(self.put(key, value))
    }

    /// The value of a key, to write.
    pub fn get_mut(&mut self, key: u64) -> Option<&mut V>
        ensures* writes_back { sem 𝓛 (lends_get V.row self.entry key result) }
        ensures value { option_copied_mut result ≡ get self.old key }
    {
        if self.contains_key(key) {
            Some(self.value_mut(key))
        } else {
            None
        }
    }

    /// The value of a key that has one, to write.
    fn value_mut(&mut self, key: u64) -> &mut V
        requires { IsSome (get self.old key) }
        ensures* writes_back { sem 𝓛 (lends_value V.row self.entry key result) }
        ensures value { get self.old key ≡ Some result.now }
    {
        let at = number(&self.pages, key) as usize - 1;
        &mut self.values[at]
    }

    /// Takes a key's value out. It takes no memory.
    pub fn remove(&mut self, key: u64) -> Option<V>
        ensures was { result ≡ get self.old key }
        ensures removed { Changes key None self.old self.new }
        ensures fewer { IfSome result (λ _. length (entries self.new) + 1 ≡ length (entries self.old)) }
        ensures room { spare self.old ≤ spare self.new }
    {
        let number = number(&self.pages, key);
        if number == 0 {
            return None;
        }
        let at = number as usize - 1;
        remove_key(&mut self.pages, &mut self.keys, key, at);
        Some(self.values.swap_remove(at))
    }

    /// Takes the value out that stands last, and gives it with its key. It takes no memory.
    pub fn pop(&mut self) -> Option<(u64, V)>
        ensures some { IfSome result (λ p. (get self.old p.0 ≡ Some p.1) × Changes p.0 None self.old self.new) }
        ensures none { IfNone result ((k : ℕ) → get self.old k ≡ None) }
        ensures fewer { IfSome result (λ p. length (entries self.new) + 1 ≡ length (entries self.old)) }
    {
        let count = self.keys.len();
        if count == 0 {
            return None;
        }
        let key = self.keys[count - 1];
        match self.remove(key) {
            Some(value) => Some((key, value)),
            None => None,
        }
    }
}

/// Where the clones of values are such, the clone of a map has them by the same keys in the same order.
impl<V: Drop + Clone> Clone for RowPages<V> {
    ghost use Rattle.std.specs.List.{AllZip};

    ghost is_clone = { λ m n. AllZip (λ p q. (q.0 ≡ p.0) × V.is_clone p.1 q.1) m.0 n.0 };

    fn clone(&self) -> Result<RowPages<V>, AllocError> {
        Ok(RowPages {
            pages: self.pages.clone()?,
            keys: self.keys.clone()?,
            values: self.values.clone()?,
        })
    }
}
