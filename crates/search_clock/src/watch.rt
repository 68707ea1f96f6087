// The clock of a search.
ghost use Rattle.std.specs.Prelude.{◌≡◌, ◌+◌, ◌*◌, MatchOption};
ghost use Rattle.ladr_io.specs.Times.{Times};
ghost use Rattle.search_clock.specs.Watching.{time_to_stop, IsLookedAt, IsWatched, HasBegun};
ghost use Rattle.ladr_io.specs.Watch.{IsLate};

use ladr_io::Clock;

/// After how many seconds to stop, if a time is set, and the clock's first reading, once there is
/// one.
#[derive(Clone, Copy)]
pub struct Watch {
    pub seconds: Option<u64>,
    pub first: Option<u64>,
}

impl Watch {
    /// Reads the clock where a time is set: the first reading is kept, and a later one that reached
    /// the time is answered.
    pub fn look<C: Clock>(&mut self, clock: &mut C) -> Option<u64>
        requires { IsWatched self.old (C.times clock.old) }
        ensures same { self.new.seconds ≡ self.old.seconds }
        ensures looks { IsLookedAt self.old.seconds (C.times clock.old) (C.times clock.new) }
        ensures begun { HasBegun self.new (C.times clock.new) }
        ensures late { MatchOption result (IsWatched self.new (C.times clock.new))
            (λ last. IsLate (time_to_stop self.new.seconds (C.times clock.new))
            (C.times clock.new) last) }
    {
        let Some(seconds) = self.seconds else {
            return None;
        };
        let now = clock.read();
        let Some(first) = self.first else {
            self.first = Some(now);
            return None;
        };
        if u128::from(now) < stop(first, seconds) {
            None
        } else {
            Some(now)
        }
    }

    /// When to stop.
    pub fn stop(&self) -> Option<u128>
        ensures { (t : Times) → HasBegun self.now t → result ≡ time_to_stop self.now.seconds t }
    {
        match (self.seconds, self.first) {
            (Some(seconds), Some(first)) => Some(stop(first, seconds)),
            _ => None,
        }
    }
}

// So many seconds behind a reading.
fn stop(first: u64, seconds: u64) -> u128
    ensures { result ≡ first + 1000 * seconds }
{
    u128::from(first) + 1000 * u128::from(seconds)
}
