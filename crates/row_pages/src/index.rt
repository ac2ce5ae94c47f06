//! Keys in a list, and pages that tell where each stands.

ghost use Rattle.std.specs.Prelude.{◌≡◌, ◌≢◌, ℕ, cond, eqb, ◌≤◌, ◌<◌, ◌+◌, ◌-◌, ◌^◌, [], ◌∷◌, ◌++◌, suc, vec_len, vec_capacity, length};
ghost use Rattle.std.specs.List.{swap_remove};
ghost use Rattle.std.specs.HashMap.{spare};
ghost use Rattle.row_pages.specs.Pages.{number_of};
ghost use Rattle.row_pages.specs.Index.{IsIndex};

use super::pages::{Pages, drop_page, set_number};

/// Appends an item to a list that has room for it.
pub(super) fn append<T: Drop>(items: &mut Vec<T>, item: T)
    requires { vec_len items.old < vec_capacity items.old }
    ensures items { items.new.items ≡ items.old.items ++ item ∷ [] }
    ensures len { vec_len items.new ≡ vec_len items.old + 1 }
    ensures capacity { vec_capacity items.old ≤ vec_capacity items.new }
{
    match items.push(item) {
        Ok(()) => {}
        // There is room, so this is not reached.
        Err(_) => {}
    }
}

/// Gives back the room of a list that has more than four times what stands, but for as much again.
pub(super) fn shrink_list<T: Drop>(items: &mut Vec<T>)
    ensures { items.new.items ≡ items.old.items }
{
    let count = items.len();
    if items.capacity() / 4 > count {
        items.shrink_to(count.saturating_mul(2));
    }
}

/// Takes a key out of the list. The last of the list takes its place.
pub(super) fn remove_key(pages: &mut Pages, keys: &mut Vec<u64>, key: u64, at: usize)
    requires index { IsIndex (number_of pages.old) keys.old.items }
    requires number { number_of pages.old key ≡ suc at }
    requires few { at + 1 < 2 ^ 32 }
    ensures index { IsIndex (number_of pages.new) keys.new.items }
    ensures keys { keys.new.items ≡ swap_remove keys.old.items at key }
    ensures number { number_of pages.new key ≡ 0 }
    ensures others { (k : ℕ) → k ≢ key → number_of pages.new k ≡ cond (eqb (number_of pages.old k) (vec_len keys.old)) (suc at) (number_of pages.old k) }
    ensures len { vec_len keys.new + 1 ≡ vec_len keys.old }
    ensures spare { spare pages.old ≤ spare pages.new }
    ensures capacity { vec_capacity keys.new ≡ vec_capacity keys.old }
{
    let last = keys[keys.len() - 1];
    set_number(pages, last, (at + 1) as u32);
    // Also where it is the last.
    set_number(pages, key, 0);
    keys.swap_remove(at);
    drop_page(pages, key);
}
