// Tests of entries, counted.
ghost use Rattle.std.specs.Prelude.{◌≡◌};
ghost use Rattle.discrim_tree.specs.Tries.{raised};

use std::alloc::Global;
use std::marker::Model;

/// A number of tests, which stops at the greatest one.
#[derive(Drop)]
pub struct Count {
    number: u64,
}

impl Model for Count {
    ghost use Rattle.std.specs.Prelude.{ℕ};

    ghost Value = { ℕ };

    ghost view = { λ a. a.number };
}

impl Count {
    /// No tests.
    pub fn new() -> Count
        ensures { result ≡ 0 }
    {
        Count { number: 0 }
    }

    /// One more test.
    pub fn raise(&mut self)
        ensures { self.new ≡ raised self.old }
    {
        if self.number < u64::MAX {
            self.number += 1;
        }
    }
}

/// How many tests an index made of entries that its walks reached; contracts see the number, which stops at the greatest one.
#[derive(Drop)]
pub struct Tries {
    pub(crate) count: Count,
    // Room for the nodes of a walk and for the numbers at its end, used again by each retrieval.
    pub(crate) walk: Vec<usize>,
    pub(crate) numbers: Vec<u64>,
}

impl Model for Tries {
    ghost use Rattle.std.specs.Prelude.{ℕ};

    ghost Value = { ℕ };

    ghost view = { λ a. a.count };
}

impl Tries {
    /// No tests.
    pub fn new(alloc: Global) -> Tries
        ensures { result ≡ 0 }
    {
        Tries {
            count: Count::new(),
            walk: Vec::new(alloc),
            numbers: Vec::new(alloc),
        }
    }

    /// How many there were.
    pub fn count(&self) -> u64
        ensures { result ≡ self.now }
    {
        self.count.number
    }
}
