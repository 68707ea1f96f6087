// A source, a sink and a clock over memory, which tell all that they hold. They fail where they are told to.
ghost use Rattle.std.specs.Prelude.{◌≡◌, ℕ, ◌+◌, ◌<◌, ◌≤◌, ◌↔◌, ◌++◌, [], false, true, min, take, drop, length, IfOk, OnErr, IsErr, MatchResult, Ok, Some};
ghost use Rattle.ladr_io.specs.Streams.{Gives, FailsBehind, Takes, TakesFront, IsDrained, counted};
ghost use Rattle.ladr_io.specs.Times.{later, no_times};
ghost use Rattle.ladr_io.specs.Memory.{CallsState, SourceState, SinkState, ClockState, IsToFail, no_calls, inflow_of, outflow_of, after_call, with_end, after_read, after_write, reading_after};

use crate::{Clock, Failed, Readings, Sink, Source};
use std::alloc::Global;
use std::marker::Model;

// The calls that were made, and those that are to fail.
#[derive(Drop)]
struct Calls {
    fails: Vec<u64>,
    made: u64,
    faults: u64,
    over: bool,
}

impl Model for Calls {
    ghost Value = { CallsState };

    ghost view = { λ c. record {
      fails = c.fails.items;
      made = c.made;
      faults = c.faults;
      over = c.over;
    } };
}

impl Calls {
    fn new(fails: Vec<u64>) -> Self
        ensures { result ≡ no_calls fails.items }
    {
        Calls {
            fails,
            made: 0,
            faults: 0,
            over: false,
        }
    }

    // Counts a call, and a fault where it is to fail.
    fn begin(&mut self) -> Result<(), Failed>
        ensures fails { IsErr result ↔ IsToFail self.old }
        ensures after { self.new ≡ after_call self.old result }
    {
        self.made = self.made.saturating_add(1);
        if self.fails.contains(&self.made) {
            return Err(self.fault());
        }
        Ok(())
    }

    fn fault(&mut self) -> Failed
        ensures after { self.new ≡ record self.old
            { faults = counted self.old.faults; over = true } }
    {
        self.faults = self.faults.saturating_add(1);
        self.over = true;
        Failed
    }

    // Keeps that a read of so many bytes into a buffer of this length told the end.
    fn keep_end(&mut self, length: usize, count: usize)
        ensures { self.new ≡ with_end self.old length count }
    {
        self.over = self.over || (count == 0 && 0 < length);
    }
}

/// A source that gives the bytes of a list.
#[derive(Drop)]
pub struct MemSource {
    bytes: Vec<u8>,
    // How many bytes were given.
    at: usize,
    // How many bytes a call gives at most.
    piece: usize,
    calls: Calls,
}

impl Model for MemSource {
    ghost Value = { SourceState };

    ghost view = { λ s. record {
      left = drop s.at s.bytes.items;
      piece = s.piece;
      calls = s.calls;
    } };

    ghost invariant = { λ s. (s.at ≤ length s.bytes.items) × (0 < s.piece) };
}

impl MemSource {
    /// A source with these bytes. The calls whose numbers (from 1) are in `fails` fail.
    pub fn new(bytes: Vec<u8>, fails: Vec<u64>) -> Self
        ensures left { result.left ≡ bytes.items }
        ensures piece { result.piece ≡ usize.MAX }
        ensures calls { result.calls ≡ no_calls fails.items }
    {
        MemSource::with_piece(bytes, usize::MAX, fails)
    }

    /// The same, but a call gives at most so many bytes.
    pub fn with_piece(bytes: Vec<u8>, piece: usize, fails: Vec<u64>) -> Self
        requires { 0 < piece }
        ensures left { result.left ≡ bytes.items }
        ensures piece { result.piece ≡ piece }
        ensures calls { result.calls ≡ no_calls fails.items }
    {
        MemSource {
            bytes,
            at: 0,
            piece,
            calls: Calls::new(fails),
        }
    }

    /// The bytes that are left.
    pub fn left(&self) -> &[u8]
        ensures { result.now ≡ self.now.left }
    {
        &self.bytes[self.at..]
    }
}

impl Source for MemSource {
    ghost inflow = { λ s. inflow_of s };

    fn read(&mut self, buf: &mut [u8]) -> Result<usize, Failed>
        requires { self.old.calls.over ≡ false }
        ensures within { IfOk result (λ n. n ≤ length buf.new) }
        ensures gives { MatchResult result (λ n. Gives (inflow_of self.old) (inflow_of self.new)
            (take n buf.new)) (λ _. FailsBehind (inflow_of self.old) (inflow_of self.new) []) }
        ensures more { IfOk result (λ n. 0 < n → self.new.calls.over ≡ false) }
        ensures drained { result ≡ Ok 0 → 0 < length buf.old → self.new.left ≡ [] }
        ensures ends { result ≡ Ok 0 → 0 < length buf.old → self.new.calls.over ≡ true }

        // Beyond what the trait says, the call is determined.
        ensures fails { IsErr result ↔ IsToFail self.old.calls }
        ensures count { IfOk result (λ n. n ≡ min (min self.old.piece (length buf.old))
            (length self.old.left)) }
        ensures bytes { IfOk result (λ n. buf.new ≡ take n self.old.left ++ drop n buf.old) }
        ensures untouched { OnErr result (buf.new ≡ buf.old) }
        ensures after { self.new ≡ after_read self.old (length buf.old) result }
    {
        self.calls.begin()?;
        let count = copy_front(&self.bytes[self.at..], buf, self.piece);
        self.at += count;
        self.calls.keep_end(buf.len(), count);
        Ok(count)
    }
}

// Copies as many bytes as the buffer has room for, but at most so many, and tells how many.
fn copy_front(bytes: &[u8], buf: &mut [u8], most: usize) -> usize
    ensures count { result ≡ min (min most (length buf.old)) (length bytes.now) }
    ensures copied { buf.new ≡ take result bytes.now ++ drop result buf.old }
    ensures split { bytes.now ≡ take result buf.new ++ drop result bytes.now }
{
    let count = most.min(buf.len()).min(bytes.len());
    buf[..count].copy_from_slice(&bytes[..count]);
    count
}

/// A sink that keeps the bytes that it takes.
#[derive(Drop)]
pub struct MemSink {
    bytes: Vec<u8>,
    // How many bytes a call takes at most.
    piece: usize,
    calls: Calls,
}

impl Model for MemSink {
    ghost Value = { SinkState };

    ghost view = { λ s. record { held = s.bytes.items; piece = s.piece; calls = s.calls } };

    ghost invariant = { λ s. 0 < s.piece };
}

impl MemSink {
    /// A sink with no bytes. The calls whose numbers (from 1) are in `fails` fail.
    pub fn new(alloc: Global, fails: Vec<u64>) -> Self
        ensures held { result.held ≡ [] }
        ensures piece { result.piece ≡ usize.MAX }
        ensures calls { result.calls ≡ no_calls fails.items }
    {
        MemSink::with_piece(alloc, usize::MAX, fails)
    }

    /// The same, but a call takes at most so many bytes.
    pub fn with_piece(alloc: Global, piece: usize, fails: Vec<u64>) -> Self
        requires { 0 < piece }
        ensures held { result.held ≡ [] }
        ensures piece { result.piece ≡ piece }
        ensures calls { result.calls ≡ no_calls fails.items }
    {
        MemSink {
            bytes: Vec::new(alloc),
            piece,
            calls: Calls::new(fails),
        }
    }

    /// The bytes that were taken.
    pub fn bytes(&self) -> &[u8]
        ensures { result.now ≡ self.now.held }
    {
        &self.bytes
    }
}

impl Sink for MemSink {
    ghost outflow = { λ s. outflow_of s };

    /// A call whose bytes find no memory fails.
    fn write(&mut self, piece: &[u8]) -> Result<usize, Failed>
        requires { self.old.calls.over ≡ false }
        ensures within { IfOk result (λ n. n ≤ length piece.now) }
        ensures takes { MatchResult result (λ n. Takes (outflow_of self.old) (outflow_of self.new)
            (take n piece.now)) (λ _. TakesFront (outflow_of self.old) (outflow_of self.new) []) }
        ensures takes_some { 0 < length piece.now → IfOk result (λ n. 0 < n) }

        // Beyond what the trait says, the call is determined, but for want of memory.
        ensures fails { IsToFail self.old.calls → IsErr result }
        ensures count { IfOk result (λ n. n ≡ min self.old.piece (length piece.now)) }
        ensures after { self.new ≡ after_write self.old piece.now result }
    {
        self.calls.begin()?;
        let count = self.piece.min(piece.len());
        match self.bytes.extend_from_slice(&piece[..count]) {
            Ok(()) => Ok(count),
            Err(_) => Err(self.calls.fault()),
        }
    }
}

/// A clock that gives the readings of a list. The last one repeats, and an empty list reads 0.
#[derive(Drop)]
pub struct MemClock {
    readings: Vec<u64>,
    given: Readings,
}

impl Model for MemClock {
    ghost Value = { ClockState };

    ghost view = { λ c. record { readings = c.readings.items; times = c.given } };
}

impl MemClock {
    pub fn new(readings: Vec<u64>) -> Self
        ensures { result ≡ record { readings = readings.items; times = no_times } }
    {
        MemClock {
            readings,
            given: Readings::new(),
        }
    }

    /// How many readings were given.
    pub fn count(&self) -> u64
        ensures { result ≡ self.now.times.count }
    {
        self.given.count()
    }

    // The reading that comes next.
    fn next(&self) -> u64
        ensures { result ≡ reading_after self.now.readings self.now.times.count }
    {
        if self.readings.is_empty() {
            return 0;
        }
        let last = self.readings.len() - 1;
        self.readings[self.count().min(last as u64) as usize]
    }
}

impl Clock for MemClock {
    ghost times = { λ c. c.times };

    fn read(&mut self) -> u64
        ensures times { self.new.times ≡ later self.old.times result }

        // Beyond what the trait says, the reading is determined.
        ensures reading { result ≡ reading_after self.old.readings self.old.times.count }
        ensures readings { self.new.readings ≡ self.old.readings }
    {
        let now = self.next();
        self.given.add(now);
        now
    }
}
