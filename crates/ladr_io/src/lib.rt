// The outside of the program as three traits: where its input comes from, where its output goes, what it reads the time
// from.
// Read `streams.rt` first: a `Source` tells contracts which bytes are left, or tells nothing; so does a `Sink` of the
// bytes that it holds. Both count their faults, and a call that fails has raised that count. `reading.rt` has
// `read_all`, which reads a source to its end, up to a limit, and `writing.rt` has `write_all`, which writes a whole
// piece.
// `clocks.rt` has the trait `Clock` and `Readings`, which keeps what a clock's contract speaks of (`specs/Times`);
// `specs/Watch` says when readings are early, and when one is late.
// `memory.rt` has a source, a sink and a clock over memory, which fail at the calls that they are told: tests run on
// them, and so does `ladr_made`.
// What contracts above rest on: the bytes that were read and written, and where a fault was counted.
#![tactic(auto)]

mod clocks;
mod memory;
mod reading;
mod streams;
mod writing;

pub use clocks::{Clock, Readings};
pub use memory::{MemClock, MemSink, MemSource};
pub use reading::{ReadAll, read_all};
pub use streams::{Failed, Sink, Source};
pub use writing::write_all;
