//! Values that are looked up one after the other.

ghost use Rattle.std.specs.Prelude.{◌≡◌, vec_len, vec_capacity, option_copied};
ghost use Rattle.std.specs.List.{zip};
ghost use Rattle.std.specs.HashMap.{spare};
ghost use Rattle.row_pages.specs.Pages.{number_of};
ghost use Rattle.row_pages.specs.Index.{IsPaged, room_in};
ghost use Rattle.row_pages.specs.Rows.{get};

use super::pages::{AtHand, Pages, number_by};
use std::marker::Model;

/// Looks values up one after the other. The page that was read last stays at hand, since keys that are looked up in turn are mostly neighbours.
/// Contracts see it as the map.
#[derive(Drop)]
pub struct Cursor<'m, V: Drop> {
    pages: &'m Pages,
    keys: &'m Vec<u64>,
    values: &'m Vec<V>,
    at_hand: AtHand<'m>,
}

impl<'m, V: Drop> Model for Cursor<'m, V> {
    ghost use Rattle.std.specs.Prelude.{vec_len, vec_capacity};
    ghost use Rattle.std.specs.List.{zip};
    ghost use Rattle.std.specs.HashMap.{spare};
    ghost use Rattle.row_pages.specs.Pages.{number_of};
    ghost use Rattle.row_pages.specs.Index.{IsPaged, room_in};
    ghost use Rattle.row_pages.specs.AtHand.{IsAtHand};
    ghost use Rattle.row_pages.specs.Rows.{Term};

    ghost Value = { Term V };

    ghost view = { λ c. (zip c.keys.now.items c.values.now.items, room_in (spare c.pages.now) (vec_capacity c.keys.now) (vec_capacity c.values.now) (vec_len c.keys.now)) };

    ghost invariant = { λ c. IsPaged (number_of c.pages.now) c.keys.now.items c.values.now.items × IsAtHand c.pages.now c.at_hand };
}

impl<'m, V: Drop> Cursor<'m, V> {
    /// A cursor over these values, with no page at hand.
    pub(super) fn new(pages: &'m Pages, keys: &'m Vec<u64>, values: &'m Vec<V>) -> Cursor<'m, V>
        requires { IsPaged (number_of pages.now) keys.now.items values.now.items }
        ensures { result
            ≡ (zip keys.now.items values.now.items, room_in (spare pages.now) (vec_capacity keys.now) (vec_capacity values.now) (vec_len keys.now)) }
    {
        Cursor {
            pages,
            keys,
            values,
            at_hand: AtHand { at: 0, page: None },
        }
    }

    /// The value of a key.
    pub fn seek(&mut self, key: u64) -> Option<&'m V>
        ensures value { option_copied result ≡ get self.old key }
        ensures same { self.new ≡ self.old }
    {
        let number = number_by(self.pages, &mut self.at_hand, key);
        if number == 0 {
            return None;
        }
        let values = self.values;
        Some(&values[number as usize - 1])
    }
}
