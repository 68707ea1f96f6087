// Where entries may stand.
ghost use Rattle.std.specs.Prelude.{◌<◌, length, IfSome};

use crate::entry::IndexEntry;
use std::alloc::Global;

// So many places are told at first.
const FEWEST: usize = 32;

// The greatest place that is told.
const GREATEST: usize = 0xffff_ffff;

/// Places of entries by the lowest bits of their numbers, as they were told last; of those with the same bits the first one. A
/// place that is told may be that of another entry, or of none.
#[derive(Drop)]
pub struct Hints {
    // None, or as many as a power of two.
    places: Vec<u32>,
}

impl Hints {
    /// Nothing is told.
    pub fn new(alloc: Global) -> Hints {
        Hints {
            places: Vec::new(alloc),
        }
    }

    // Where the place of a number is told.
    #[tactic(auto, using(std::proofs::lemmas::Nat::and_le_r))]
    fn slot(&self, number: u64) -> Option<usize>
        ensures { IfSome result (λ k. k < length self.now.places.items) }
    {
        let count = self.places.len() as u64;
        if count == 0 {
            return None;
        }
        Some((number & (count - 1)) as usize)
    }

    /// The place that is told of a number.
    pub fn place(&self, number: u64) -> usize {
        match self.slot(number) {
            None => 0,
            Some(slot) => self.places[slot] as usize,
        }
    }

    // Whether a place before another one is told, and rightly.
    fn is_taken(&self, entries: &[IndexEntry], slot: usize, place: usize) -> bool
        requires { slot < length self.now.places.items }
    {
        let told = self.places[slot] as usize;
        if told >= place {
            return false;
        }
        if told >= entries.len() {
            return false;
        }
        match self.slot(entries[told].number) {
            None => false,
            Some(other) => other == slot,
        }
    }

    // The place of an entry is told, if that of no entry before it is told there.
    fn tell(&mut self, entries: &[IndexEntry], place: usize)
        requires { place < length entries.now }
    {
        if place > GREATEST {
            return;
        }
        if let Some(slot) = self.slot(entries[place].number) {
            if !self.is_taken(entries, slot, place) {
                self.places[slot] = place as u32;
            }
        }
    }

    // Whether twice as many places are told, where there are more entries than half of them.
    fn is_wider(&mut self, count: usize) -> bool {
        let room = self.places.len();
        if count <= room / 2 {
            return false;
        }
        self.places
            .resize(room.saturating_mul(2).max(FEWEST), 0)
            .is_ok()
    }

    /// The places of the entries from one on are told again, and those of all where there is room for more of them.
    pub fn renew(&mut self, entries: &[IndexEntry], from: usize) {
        let mut first = from;
        if self.is_wider(entries.len()) {
            first = 0;
        }
        for i in first..entries.len() {
            self.tell(entries, i);
        }
    }
}
