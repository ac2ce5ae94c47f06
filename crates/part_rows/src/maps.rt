//! Rows on values by position.
//!
//! `put POSITION VALUE` makes room and fills it, `room POSITION` makes room alone, `forget` forgets rooms. `get POSITION`, `next POSITION` (the lowest
//! position from there on), `end POSITION` (the last one of the run behind it; it has no value itself), `last`: what shows.

ghost use Rattle.std.specs.Prelude.{◌≤◌};

use crate::playing::{Played, play_all};
use crate::reading::{number_text, said};
use message_words::read_u32;
use position_map::PositionMap;
use rows::{RowFault, Words};
use std::alloc::{AllocError, Global};

/// A map, as calls of it show it.
#[derive(Drop)]
struct PlayedMap {
    map: PositionMap<u32>,
}

/// A row on a map.
pub(super) fn row(alloc: Global, words: &Words<'_>) -> Result<String, RowFault> {
    let mut part = PlayedMap {
        map: PositionMap::new(alloc),
    };
    play_all(alloc, &mut part, words.rest())
}

/// Puts a value at a position.
fn put(map: &mut PositionMap<u32>, position: u32, value: u32) -> Result<(), AllocError>
    requires { 1 ≤ position }
{
    if map.reserve(position).is_err() {
        map.reserve(position)?;
    }
    map.fill(position, value);
    Ok(())
}

/// Makes room at a position.
fn make_room(map: &mut PositionMap<u32>, position: u32) -> Result<(), AllocError>
    requires { 1 ≤ position }
{
    if map.reserve(position).is_err() {
        map.reserve(position)?;
    }
    Ok(())
}

impl PlayedMap {
    /// What a call at a position gives.
    fn call_at(
        &mut self,
        alloc: Global,
        word: &str,
        words: &mut Words<'_>,
    ) -> Result<String, RowFault> {
        let position = read_u32(words)?;
        match word {
            "get" => {
                let value = self.map.get(position).copied();
                Ok(number_text(alloc, value.map(u64::from))?)
            }
            "next" => Ok(number_text(alloc, self.map.next_from(position).map(u64::from))?),
            "end" => self.end(alloc, position),
            _ => self.change_at(alloc, word, position, words),
        }
    }

    /// The last position of the run behind one that has no value.
    fn end(&self, alloc: Global, position: u32) -> Result<String, RowFault> {
        match self.map.get(position) {
            None => {
                let end = self.map.run_end(position);
                Ok(format!(in alloc; "{end}")?)
            }
            Some(_) => Err(RowFault::NotARow),
        }
    }

    /// What a change at a position gives.
    fn change_at(
        &mut self,
        alloc: Global,
        word: &str,
        position: u32,
        words: &mut Words<'_>,
    ) -> Result<String, RowFault> {
        if position < 1 {
            return Err(RowFault::NotARow);
        }
        match word {
            "put" => {
                let value = read_u32(words)?;
                put(&mut self.map, position, value)?;
            }
            "room" => make_room(&mut self.map, position)?,
            _ => return Err(RowFault::NotARow),
        }
        said(alloc, "ok")
    }
}

impl Played for PlayedMap {
    fn call(&mut self, alloc: Global, words: &mut Words<'_>) -> Result<String, RowFault> {
        match words.plain()? {
            "last" => Ok(number_text(alloc, self.map.last().map(u64::from))?),
            "forget" => {
                self.map.forget_rooms();
                said(alloc, "ok")
            }
            word => self.call_at(alloc, word, words),
        }
    }
}
