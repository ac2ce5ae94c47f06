//! Numbers by key, 16 to a page, so that what is looked up most takes few cache lines.

ghost use Rattle.std.specs.Prelude.{◌≡◌, ◌≢◌, ◌≤◌, ◌<◌, ◌+◌, ◌^◌, ℕ, ◌/◌, true, false, set, get_or, cond, eqb};
ghost use Rattle.std.specs.HashMap.{spare};
ghost use Rattle.row_pages.specs.Pages.{number_of, HasPage};
ghost use Rattle.row_pages.specs.AtHand.{IsAtHand};

use super::hasher::PageHashes;
use std::collections::HashMap;

/// Pages by number. The keys of page n are those from 16 n on.
pub(super) type Pages = HashMap<u64, [u32; 16], PageHashes>;

/// The number of a key, 0 for none.
pub(super) fn number(pages: &Pages, key: u64) -> u32
    ensures { result ≡ number_of pages.now key }
{
    match pages.get(&(key / 16)) {
        Some(page) => page[(key % 16) as usize],
        None => 0,
    }
}

/// The page that was read last, with its number; none before the first.
#[derive(Clone, Copy)]
pub(super) struct AtHand<'m> {
    pub(super) at: u64,
    pub(super) page: Option<&'m [u32; 16]>,
}

/// The number of a key, 0 for none, read off the page at hand, where that is the key's.
pub(super) fn number_by<'m>(pages: &'m Pages, at_hand: &mut AtHand<'m>, key: u64) -> u32
    requires { IsAtHand pages.now at_hand.old }
    ensures number { result ≡ number_of pages.now key }
    ensures at_hand { IsAtHand pages.now at_hand.new }
{
    match at_hand.page {
        Some(page) if at_hand.at == key / 16 => page[(key % 16) as usize],
        _ => match pages.get(&(key / 16)) {
            Some(page) => {
                at_hand.at = key / 16;
                at_hand.page = Some(page);
                page[(key % 16) as usize]
            }
            None => 0,
        },
    }
}

/// Gives a key of a page that is there another number.
pub(super) fn set_number(pages: &mut Pages, key: u64, number: u32)
    requires { HasPage pages.old key }
    ensures here { number_of pages.new key ≡ number }
    ensures apart { (k : ℕ) → k ≢ key → number_of pages.new k ≡ number_of pages.old k }
    ensures pages { (k : ℕ) → HasPage pages.old k → HasPage pages.new k }
    ensures spare { spare pages.new ≡ spare pages.old }
{
    if let Some(page) = pages.get_mut(&(key / 16)) {
        write(page, (key % 16) as usize, number);
    }
}

/// Writes a number into a page.
fn write(page: &mut [u32; 16], at: usize, number: u32)
    requires { at < 16 }
    ensures page { page.new ≡ set page.old at number }
    ensures here { get_or page.new at 0 ≡ number }
{
    page[at] = number;
}

/// Writes a number into a page where 0 stands, and gives what stood there.
fn fill(page: &mut [u32; 16], at: usize, number: u32) -> u32
    requires { at < 16 }
    ensures was { result ≡ get_or page.old at 0 }
    ensures page { page.new ≡ set page.old at (cond (eqb result 0) number result) }
    ensures here { get_or page.new at 0 ≡ cond (eqb result 0) number result }
{
    let was = page[at];
    if was == 0 {
        page[at] = number;
    }
    was
}

/// Gives a key that has no number this one, in a page that is made where none is there, and gives the number that the key had, 0 for none.
pub(super) fn number_or_add(pages: &mut Pages, key: u64, number: u32) -> u32
    requires room { 1 ≤ spare pages.old }
    ensures was { result ≡ number_of pages.old key }
    ensures here { number_of pages.new key ≡ cond (eqb result 0) number result }
    ensures apart { (k : ℕ) → k ≢ key → number_of pages.new k ≡ number_of pages.old k }
    ensures spare { spare pages.old ≤ spare pages.new + 1 }
{
    if let Some(page) = pages.get_mut(&(key / 16)) {
        return fill(page, (key % 16) as usize, number);
    }
    let mut page = [0; 16];
    write(&mut page, (key % 16) as usize, number);
    match pages.insert(key / 16, page) {
        Ok(_) => {}
        // There is room, so this is not reached.
        Err(_) => {}
    }
    0
}

/// Gives back the room of pages where there is more than four times what stands, but for as much again.
pub(super) fn shrink_pages(pages: &mut Pages)
    ensures { (k : ℕ) → number_of pages.new k ≡ number_of pages.old k }
{
    let count = pages.len();
    if pages.capacity() / 4 > count {
        pages.shrink_to(count.saturating_mul(2));
    }
}

/// Takes the page of a key away, unless it has numbers.
pub(super) fn drop_page(pages: &mut Pages, key: u64)
    ensures same { (k : ℕ) → number_of pages.new k ≡ number_of pages.old k }
    ensures spare { spare pages.old ≤ spare pages.new }
{
    if is_blank(pages, key) {
        pages.remove(&(key / 16));
    }
}

/// Whether no key of a page has a number.
fn is_blank(pages: &Pages, key: u64) -> bool
    ensures { result ≡ true → (k : ℕ) → k / 16 ≡ key / 16 → number_of pages.now k ≡ 0 }
{
    match pages.get(&(key / 16)) {
        Some(page) => *page == [0; 16],
        None => true,
    }
}
