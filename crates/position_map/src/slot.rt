//! Slots by position: each has a value or the room for one, and at an end of a run the other end.

ghost use Rattle.std.specs.Prelude.{◌≡◌, ◌≢◌, ◌≤◌, ◌<◌, ◌↔◌, ◌^◌, ◌==◌, ℕ, suc, List, [], ◌∷◌, ◌++◌, if◌then◌else◌, true, None, Some, IsTrue, MatchOption, OnErr, OnOk};
ghost use Rattle.std.specs.List.{list_any};
ghost use Rattle.position_map.specs.Slots.{filled, value_at, HasSlot, IsNext, Rise};
ghost use Rattle.position_map.specs.Ends.{end_at, end_known, first_of, last_of, shown, IsFilled, IsKept, IsSlotCopy, Joins};

use std::alloc::AllocError;
use std::collections::BTreeMap;

/// A value or the room for one.
///
/// A run is a longest stretch of positions that all have values. At the first and at the last position of a run the slot knows
/// the other end of it.
#[derive(Drop)]
pub(super) struct Slot<V: Drop> {
    pub(super) value: Option<V>,
    pub(super) other_end: u32,
}

impl<V: Drop + Clone> Clone for Slot<V> {
    ghost is_clone = { λ s t. IsSlotCopy V.is_clone s t };

    fn clone(&self) -> Result<Slot<V>, AllocError> {
        let value = match &self.value {
            Some(value) => Some(value.clone()?),
            None => None,
        };
        Ok(Slot {
            value,
            other_end: self.other_end,
        })
    }
}

/// Makes an empty slot at a position that has none. Where memory is refused, the slots hold what they held.
pub(super) fn make_room<V: Drop>(
    slots: &mut BTreeMap<u32, Slot<V>>,
    position: u32,
) -> Result<(), AllocError>
    requires least { 1 ≤ position }
    requires absent { value_at position (shown slots.old.entries) ≡ None }
    ensures same { filled (shown slots.new.entries) ≡ filled (shown slots.old.entries) }
    ensures kept { (rooms : List ℕ) → list_any (λ r. position == r) rooms ≡ true → IsKept rooms slots.old.entries → IsKept rooms slots.new.entries }
    ensures room { OnOk result (HasSlot position (shown slots.new.entries)) }
    ensures elsewhere { (q : ℕ) → q ≢ position → value_at q (shown slots.new.entries) ≡ value_at q (shown slots.old.entries) }
    ensures refused { OnErr result (shown slots.new.entries ≡ shown slots.old.entries) }
{
    let slot = Slot {
        value: None,
        other_end: position,
    };
    match slots.insert(position, slot) {
        Ok(_) => Ok(()),
        Err(_) => Err(AllocError),
    }
}

/// Takes away the slot at a position, if it is empty.
pub(super) fn remove_room<V: Drop>(slots: &mut BTreeMap<u32, Slot<V>>, position: u32)
    ensures same { filled (shown slots.new.entries) ≡ filled (shown slots.old.entries) }
    ensures kept { (rooms : List ℕ) → IsKept (rooms ++ position ∷ []) slots.old.entries → IsKept rooms slots.new.entries }
{
    if is_empty(slots, position) {
        slots.remove(&position);
    }
}

/// Whether the slot at a position has no value.
fn is_empty<V: Drop>(slots: &BTreeMap<u32, Slot<V>>, position: u32) -> bool
    ensures { IsTrue result ↔ (value_at position (shown slots.now.entries) ≡ Some None) }
{
    match slots.get(&position) {
        Some(slot) => slot.value.is_none(),
        None => false,
    }
}

/// The lowest position at or above this one whose slot has a value.
pub(super) fn first_from<V: Drop>(slots: &BTreeMap<u32, Slot<V>>, position: u32) -> Option<u32>
    requires rise { Rise 0 (shown slots.now.entries) }
    ensures { MatchOption result ((q : ℕ) → position ≤ q → value_at q (filled (shown slots.now.entries)) ≡ None) (λ next. IsNext (filled (shown slots.now.entries)) position next) }
{
    for (next, slot) in slots.range(position..) {
        if slot.value.is_some() {
            return Some(*next);
        }
    }
    None
}

/// The lowest position above this one whose slot has a value.
pub(super) fn first_after<V: Drop>(slots: &BTreeMap<u32, Slot<V>>, position: u32) -> Option<u32>
    requires rise { Rise 0 (shown slots.now.entries) }
    requires fits { (q : ℕ) → 2 ^ 32 ≤ q → value_at q (shown slots.now.entries) ≡ None }
    ensures { MatchOption result ((q : ℕ) → position < q → value_at q (filled (shown slots.now.entries)) ≡ None) (λ next. IsNext (filled (shown slots.now.entries)) (suc position) next) }
{
    match position.checked_add(1) {
        Some(from) => first_from(slots, from),
        None => None,
    }
}

/// Puts a value into the slot at a position. Says whether the slot was empty.
pub(super) fn put<V: Drop>(slots: &mut BTreeMap<u32, Slot<V>>, position: u32, value: V) -> bool
    requires room { HasSlot position (shown slots.old.entries) }
    requires rise { Rise 0 (shown slots.old.entries) }
    ensures filled { IsFilled position value slots.old.entries slots.new.entries }
    ensures was_empty { IsTrue result ↔ (value_at position (shown slots.old.entries) ≡ Some None) }
{
    match slots.get_mut(&position) {
        Some(slot) => slot.value.replace(value).is_none(),
        None => false,
    }
}

/// Makes the ends of the run that a position joins know each other.
pub(super) fn join<V: Drop>(slots: &mut BTreeMap<u32, Slot<V>>, position: u32)
    requires least { 1 ≤ position }
    requires rise { Rise 0 (shown slots.old.entries) }
    requires fits { (q : ℕ) → 2 ^ 32 ≤ q → value_at q (shown slots.old.entries) ≡ None }
    requires first { HasSlot (first_of (filled (shown slots.old.entries)) (λ q. end_at q slots.old.entries) position) (shown slots.old.entries) }
    requires last { HasSlot (last_of (filled (shown slots.old.entries)) (λ q. end_at q slots.old.entries) position) (shown slots.old.entries) }
    ensures same { shown slots.new.entries ≡ shown slots.old.entries }
    ensures ends { Joins (first_of (filled (shown slots.old.entries)) (λ q. end_at q slots.old.entries) position)
        (last_of (filled (shown slots.old.entries)) (λ q. end_at q slots.old.entries) position)
        (λ q. end_at q slots.old.entries) (λ q. end_at q slots.new.entries) }
{
    let first = first_before(slots, position);
    let last = last_after(slots, position);
    set_end(slots, first, last);
    set_end(slots, last, first);
}

/// The first position of the run that ends before a position, or the position itself where there is none.
fn first_before<V: Drop>(slots: &BTreeMap<u32, Slot<V>>, position: u32) -> u32
    requires least { 1 ≤ position }
    requires rise { Rise 0 (shown slots.now.entries) }
    ensures { result ≡ first_of (filled (shown slots.now.entries)) (λ q. end_at q slots.now.entries) position }
{
    other_end(slots, position - 1).unwrap_or(position)
}

/// The last position of the run that begins after a position, or the position itself where there is none.
pub(super) fn last_after<V: Drop>(slots: &BTreeMap<u32, Slot<V>>, position: u32) -> u32
    requires rise { Rise 0 (shown slots.now.entries) }
    requires fits { (q : ℕ) → 2 ^ 32 ≤ q → value_at q (shown slots.now.entries) ≡ None }
    ensures { result ≡ last_of (filled (shown slots.now.entries)) (λ q. end_at q slots.now.entries) position }
{
    match position.checked_add(1) {
        Some(next) => other_end(slots, next).unwrap_or(position),
        None => position,
    }
}

/// The other end that a position with a value knows.
fn other_end<V: Drop>(slots: &BTreeMap<u32, Slot<V>>, position: u32) -> Option<u32>
    requires rise { Rise 0 (shown slots.now.entries) }
    ensures { result ≡ end_known (filled (shown slots.now.entries)) (λ q. end_at q slots.now.entries) position }
{
    match slots.get(&position) {
        Some(slot) => slot.value.is_some().then_some(slot.other_end),
        None => None,
    }
}

/// Makes the slot at a position know another end.
fn set_end<V: Drop>(slots: &mut BTreeMap<u32, Slot<V>>, position: u32, other_end: u32)
    requires room { HasSlot position (shown slots.old.entries) }
    ensures same { shown slots.new.entries ≡ shown slots.old.entries }
    ensures ends { (q : ℕ) → end_at q slots.new.entries ≡ (if q == position then other_end else end_at q slots.old.entries) }
{
    if let Some(slot) = slots.get_mut(&position) {
        slot.other_end = other_end;
    }
}
