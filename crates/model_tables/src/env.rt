// Elements for variables.
ghost use Rattle.std.specs.Prelude.{◌≡◌, ◌<◌, None, Some, [], length, slice_set, OnOk, OnErr};
ghost use Rattle.model_tables.specs.Variables.{assignment, slot, with_room};

use std::alloc::{AllocError, Global};
use std::marker::Model;

/// Elements for variables; contracts see a slot for each variable number that there is room for.
#[derive(Drop)]
pub struct Env {
    slots: Vec<Option<u32>>,
}

impl Model for Env {
    ghost use Rattle.std.specs.Prelude.{List, Option, ℕ};

    ghost Value = { List (Option ℕ) };

    ghost view = { λ a. a.slots.items };
}

impl Env {
    /// No room.
    pub fn new(alloc: Global) -> Env
        ensures { result ≡ [] }
    {
        Env {
            slots: Vec::new(alloc),
        }
    }

    /// Makes room for the variables below `room`; those that come in have no element.
    pub fn reserve(&mut self, room: u64) -> Result<(), AllocError>
        ensures ok { OnOk result (self.new ≡ with_room self.old room) }
        ensures err { OnErr result (self.new ≡ self.old) }
    {
        let room = room as usize;
        if self.slots.len() < room {
            self.slots.resize(room, None)?;
        }
        Ok(())
    }

    /// The element of a variable, if it is set.
    pub fn get(&self, variable: u64) -> Option<u32>
        ensures { result ≡ slot self.now variable }
    {
        match self.slots.get(variable as usize) {
            None => None,
            Some(slot) => *slot,
        }
    }

    // The element of a variable, 0 where it has none.
    pub(crate) fn element(&self, variable: u64) -> u32
        ensures { result ≡ assignment self.now variable }
    {
        self.get(variable).unwrap_or(0)
    }

    /// Sets a variable that there is room for.
    pub fn set(&mut self, variable: u64, element: u32)
        requires { variable < length self.old }
        ensures { self.new ≡ slice_set self.old variable (Some element) }
    {
        self.slots[variable as usize] = Some(element);
    }

    // Sets a variable to what it had before.
    pub(crate) fn put(&mut self, variable: u64, element: Option<u32>)
        requires { variable < length self.old }
        ensures { self.new ≡ slice_set self.old variable element }
    {
        self.slots[variable as usize] = element;
    }
}
