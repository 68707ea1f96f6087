// Variables numbered by first occurrence: few are looked through one by one, further ones are found in a tree.
ghost use Rattle.std.specs.Prelude.{◌≡◌, ◌==◌, ◌++◌, ◌∷◌, [], ℕ, List, None, IfOk, OnOk, length, position};
ghost use Rattle.fol_core.specs.Free.{noted};
ghost use Rattle.fol_core.specs.Renumbered.{place_in};
ghost use Rattle.fol_core.specs.SymbolTable.{first_place};

use std::alloc::{AllocError, Global};
use std::collections::BTreeMap;
use std::marker::Model;

// How many variables are few.
const FEW: usize = 16;

/// Variables in the order in which they came, each numbered by its place; contracts see the list.
#[derive(Drop)]
pub struct Numbers {
    few: Vec<u128>,
    others: Vec<u128>,
    // The numbers of those behind the few.
    places: BTreeMap<u128, u64>,
}

impl Model for Numbers {
    ghost use Rattle.std.specs.Prelude.{ℕ, List, ◌++◌};

    ghost Value = { List ℕ };

    ghost use Rattle.term_unifiers.specs.Written.{AreNoted};

    ghost view = { λ a. a.few.items ++ a.others.items };

    ghost invariant = { λ a. AreNoted a.few.items a.others.items a.places.entries };
}

impl Numbers {
    /// None yet.
    pub fn new(alloc: Global) -> Numbers
        ensures { result ≡ [] }
    {
        Numbers {
            few: Vec::new(alloc),
            others: Vec::new(alloc),
            places: BTreeMap::new(alloc),
        }
    }

    /// The number of a variable, which is the next one where it had none.
    pub(crate) fn number(&mut self, x: u128) -> Result<u64, AllocError>
        ensures numbers { OnOk result (self.new ≡ noted self.old x) }
        ensures number { IfOk result (λ n. (behind : List ℕ)
            → n ≡ place_in (self.new ++ behind) x) }
    {
        match self.place(x) {
            Some(place) => Ok(place),
            None => self.add(x),
        }
    }

    // The number of a variable, if it has one.
    fn place(&self, x: u128) -> Option<u64>
        ensures { result ≡ first_place (λ y. x == y) self.now }
    {
        match place_among(self.few.as_slice(), x) {
            Some(place) => Some(place as u64),
            None => self.places.get(&x).copied(),
        }
    }

    // A variable that has none gets the next one.
    fn add(&mut self, x: u128) -> Result<u64, AllocError>
        requires { first_place (λ y. x == y) self.old ≡ None }
        ensures numbers { OnOk result (self.new ≡ self.old ++ x ∷ []) }
        ensures number { IfOk result (λ n. n ≡ length self.old) }
    {
        let place = (self.few.len() + self.others.len()) as u64;
        if self.few.len() < FEW {
            self.few.push(x)?;
            return Ok(place);
        }
        self.others.reserve(1)?;
        self.places.insert(x, place)?;
        self.others.push_reserved(x);
        Ok(place)
    }
}

// The first place of a variable among some.
fn place_among(few: &[u128], x: u128) -> Option<usize>
    ensures { result ≡ position (λ y. x == y) few.now }
{
    few.iter().position(|y| x == *y)
}
