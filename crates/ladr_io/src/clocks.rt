// What the time is read from.
ghost use Rattle.std.specs.Prelude.{◌≡◌};
ghost use Rattle.ladr_io.specs.Times.{Times, later, no_times};

use std::marker::Model;

/// A clock that gives milliseconds. It never fails, and it may go back.
pub trait Clock {
    // The readings that it gave.
    ghost times: { Self → Times };

    fn read(&mut self) -> u64
        ensures { times self.new ≡ later (times self.old) result };
}

/// What a clock keeps of the readings that it gave.
#[derive(Drop)]
pub struct Readings {
    count: u64,
    first: u64,
    last: u64,
    // The greatest of those between the first and the last.
    between: u64,
}

impl Model for Readings {
    ghost Value = { Times };

    ghost view = { λ r. record {
      count = r.count;
      first = r.first;
      last = r.last;
      between = r.between;
    } };
}

impl Readings {
    pub fn new() -> Self
        ensures { result ≡ no_times }
    {
        Readings {
            count: 0,
            first: 0,
            last: 0,
            between: 0,
        }
    }

    /// How many readings were given.
    pub fn count(&self) -> u64
        ensures { result ≡ self.now.count }
    {
        self.count
    }

    /// Keeps one more reading.
    pub fn add(&mut self, now: u64)
        ensures { self.new ≡ later self.old now }
    {
        if self.count == 0 {
            self.first = now;
        }
        self.between = if self.count < 2 {
            0
        } else {
            self.between.max(self.last)
        };
        self.last = now;
        self.count = self.count.saturating_add(1);
    }
}
