// Room for what is noted while clauses are weighed.
ghost use Rattle.std.specs.Prelude.{◌≡◌, ◌≤◌, OnOk};

use std::alloc::{AllocError, Global};
use std::marker::Model;
use subsume::Places;
use term_matches::Matches;

/// Room for weighing clauses and comparing them with hints, which then takes no memory: for weights, for bindings to terms of a
/// clause, and for places in hints. Contracts see how many symbols and variables a clause may have.
#[derive(Drop)]
pub struct Room<'a> {
    pub(crate) weights: Vec<u64>,
    pub(crate) found: Matches<'a>,
    pub(crate) places: Places<'a>,
    size: usize,
}

impl<'a> Model for Room<'a> {
    ghost use Rattle.std.specs.Prelude.{ℕ};

    ghost Value = { ℕ };

    ghost view = { λ a. a.size };

    ghost use Rattle.weights.specs.Rooms.{HasCapacity};

    ghost invariant = { HasCapacity };
}

impl<'a> Room<'a> {
    /// No room.
    pub fn new(alloc: Global) -> Room<'a> {
        Room {
            weights: Vec::new(alloc),
            found: Matches::new(alloc),
            places: Places::new(alloc),
            size: 0,
        }
    }

    /// Makes room for a clause of so many symbols and variables.
    pub fn reserve(&mut self, size: u64) -> Result<(), AllocError>
        ensures room { OnOk result (size ≤ self.new) }
        ensures kept { self.old ≤ self.new }
    {
        let size = size as usize;
        if size <= self.size {
            return Ok(());
        }
        self.weights.clear();
        self.weights.reserve(size)?;
        self.found.undo(0);
        self.found.reserve_more(size)?;
        self.places.reserve(size)?;
        self.size = size;
        Ok(())
    }
}
