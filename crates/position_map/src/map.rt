//! Values by position, in a map that knows its runs of positions without a gap.

ghost use Rattle.std.specs.Prelude.{◌≡◌, ◌≢◌, ◌≤◌, ◌<◌, ◌==◌, ℕ, suc, if◌then◌else◌, [], None, Some, IsSome, MatchOption, OnErr, OnOk};
ghost use Rattle.std.specs.Option.{option_copied};
ghost use Rattle.position_map.specs.Slots.{filled, value_at, HasSlot, IsNext, IsRunEnd, Rise};

use super::slot::{Slot, first_after, first_from, join, last_after, make_room, put, remove_room};
use std::alloc::{AllocError, Global};
use std::collections::BTreeMap;
use std::marker::Model;

/// Values by position. A position may also have room for a value that is to come, so that it takes no memory then.
///
/// Each call takes a few look-ups in a map, however many values there are. `next_from`, `next_after`, `last` and `forget_rooms` take at most one
/// more for each position where room was made since the last `forget_rooms`.
#[derive(Drop)]
pub struct PositionMap<V: Drop> {
    slots: BTreeMap<u32, Slot<V>>,
    /// Where room was made since the last `forget_rooms`. There is no other empty slot, but some of these have a value by now.
    rooms: Vec<u32>,
}

impl<V: Drop> Model for PositionMap<V> {
    ghost use Rattle.std.specs.Prelude.{List};
    ghost use Rattle.position_map.specs.Slots.{Slot as SlotTerm};
    ghost use Rattle.position_map.specs.Ends.{shown, IsKept};

    ghost Value = { List (SlotTerm V) };

    ghost view = { λ m. shown m.slots.entries };

    ghost invariant = { λ m. IsKept m.rooms.items m.slots.entries };
}

impl<V: Drop> PositionMap<V> {
    /// No values.
    pub fn new(alloc: Global) -> PositionMap<V>
        ensures { result ≡ [] }
    {
        PositionMap {
            slots: BTreeMap::new(alloc),
            rooms: Vec::new(alloc),
        }
    }

    /// The value at a position, if there is one.
    pub fn get(&self, position: u32) -> Option<&V>
        ensures value { option_copied result ≡ value_at position (filled self.now) }
        ensures rise { Rise 0 self.now }
    {
        match self.slots.get(&position) {
            Some(slot) => slot.value.as_ref(),
            None => None,
        }
    }

    /// The lowest position at or above this one that has a value.
    pub fn next_from(&self, position: u32) -> Option<u32>
        ensures { MatchOption result ((q : ℕ) → position ≤ q → value_at q (filled self.now) ≡ None) (λ next. IsNext (filled self.now) position next) }
    {
        first_from(&self.slots, position)
    }

    /// The lowest position above this one that has a value.
    pub fn next_after(&self, position: u32) -> Option<u32>
        ensures { MatchOption result ((q : ℕ) → position < q → value_at q (filled self.now) ≡ None) (λ next. IsNext (filled self.now) (suc position) next) }
    {
        first_after(&self.slots, position)
    }

    /// The last of the positions after this one that have values without a gap, or this one where the next has none. The position
    /// itself has none.
    pub fn run_end(&self, position: u32) -> u32
        requires start { value_at position (filled self.now) ≡ None }
        ensures { IsRunEnd (filled self.now) position result }
    {
        last_after(&self.slots, position)
    }

    /// The highest position that has a value.
    pub fn last(&self) -> Option<u32>
        ensures { MatchOption result (filled self.now ≡ []) (λ last. IsSome (value_at last (filled self.now)) × ((q : ℕ) → last < q → value_at q (filled self.now) ≡ None)) }
    {
        for (last, slot) in self.slots.iter().rev() {
            if slot.value.is_some() {
                return Some(*last);
            }
        }
        None
    }

    /// Makes room for a value at a position. The values stay the same, and so does the room at other positions.
    ///
    /// Where memory is refused, nothing changes.
    pub fn reserve(&mut self, position: u32) -> Result<(), AllocError>
        requires least { 1 ≤ position }
        ensures same { filled self.new ≡ filled self.old }
        ensures room { OnOk result (HasSlot position self.new) }
        ensures others { (q : ℕ) → HasSlot q self.old → HasSlot q self.new }
        ensures elsewhere { (q : ℕ) → q ≢ position → value_at q self.new ≡ value_at q self.old }
        ensures refused { OnErr result (self.new ≡ self.old) }
        ensures rise { Rise 0 self.new }
    {
        if self.slots.contains_key(&position) {
            return Ok(());
        }
        // Noted first: where the slot is then refused, a position without one among the rooms does no harm.
        self.rooms.push(position)?;
        make_room(&mut self.slots, position)
    }

    /// Takes away all room that was made and not used.
    pub fn forget_rooms(&mut self)
        ensures same { filled self.new ≡ filled self.old }
        ensures full { (q : ℕ) → HasSlot q self.new → IsSome (value_at q (filled self.new)) }
        ensures rise { Rise 0 self.new }
    {
        while let Some(room) = self.rooms.pop() {
            remove_room(&mut self.slots, room);
        }
    }

    /// Puts a value at a position that has room or a value. It takes no memory.
    pub fn fill(&mut self, position: u32, value: V)
        requires room { HasSlot position self.old }
        ensures put { (q : ℕ) → value_at q (filled self.new) ≡ (if q == position then Some value else value_at q (filled self.old)) }
        ensures others { (q : ℕ) → HasSlot q self.old → HasSlot q self.new }
        ensures rise { Rise 0 self.new }
    {
        if put(&mut self.slots, position, value) {
            join(&mut self.slots, position);
        }
    }
}

/// Where the clones of values equal them, the clone of a map equals the map.
impl<V: Drop + Clone> Clone for PositionMap<V> {
    ghost is_clone = { λ m n. ((x y : V) → V.is_clone x y → y ≡ x) → n ≡ m };

    fn clone(&self) -> Result<PositionMap<V>, AllocError> {
        Ok(PositionMap {
            slots: self.slots.clone()?,
            rooms: self.rooms.clone()?,
        })
    }
}
