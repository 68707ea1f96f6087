// The machine's clock.
ghost use Rattle.std.specs.Prelude.{◌≡◌};
ghost use Rattle.ladr_io.specs.Times.{later, no_times};

use ladr_io::{Clock, Readings};
use std::rt::Clock as Machine;
use std::time::Instant;

/// Gives the milliseconds since it was made, or 0 where the machine doesn't tell the time.
#[derive(Drop)]
pub struct Stopwatch<M> {
    machine: M,
    start: Option<Instant>,
    given: Readings,
}

impl<M: Machine> Stopwatch<M> {
    pub fn new(machine: M) -> Stopwatch<M>
        ensures { result.given ≡ no_times }
    {
        let start = Instant::now(&machine).ok();
        Stopwatch {
            machine,
            start,
            given: Readings::new(),
        }
    }

    // The milliseconds since it was made, at most the greatest u64.
    fn elapsed(&self) -> Option<u64> {
        let elapsed = self.start?.elapsed(&self.machine).ok()?;
        Some(u64::try_from(elapsed.as_millis()).unwrap_or(u64::MAX))
    }
}

impl<M: Machine> Clock for Stopwatch<M> {
    ghost times = { λ c. c.given };

    fn read(&mut self) -> u64 {
        let now = self.elapsed().unwrap_or(0);
        self.given.add(now);
        now
    }
}

#[cfg(test)]
mod tests {
    use super::*;
    use std::cell::Cell;
    use std::io;
    use std::test::Fail;
    use std::time::Duration;

    // A machine whose clock reads so many milliseconds, or fails.
    #[derive(Drop)]
    struct Reads<'a> {
        millis: &'a Cell<Option<u64>>,
    }

    impl Machine for Reads<'_> {
        fn monotonic(&self) -> io::Result<Duration> {
            match self.millis.get() {
                Some(millis) => Ok(Duration::from_millis(millis)),
                None => Err(io::Error::from(io::ErrorKind::Unsupported)),
            }
        }

        fn since_1970(&self) -> io::Result<Duration> {
            Err(io::Error::from(io::ErrorKind::Unsupported))
        }
    }

    #[test]
    fn gives_milliseconds_since_it_was_made(rt: HostRuntime) -> Result<(), Fail> {
        let millis = Cell::new(Some(5_000));
        let mut clock = Stopwatch::new(Reads { millis: &millis });
        for (now, reading) in [
            (Some(5_000), 0),
            (Some(5_250), 250),
            (Some(4_000), 0),
            (None, 0),
            (Some(65_000), 60_000),
        ] {
            millis.set(now);
            assert_eq!(rt; clock.read(), reading);
        }
        assert_eq!(rt; clock.given.count(), 5);
        Ok(())
    }
}
