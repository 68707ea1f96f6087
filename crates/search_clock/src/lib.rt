// The clock of a search, and the lines that tell why one ended.
// `watch.rt` keeps the clock's first reading and tells whether a later one reached the time; `options.rt` has the time
// that an input sets, and `lines.rt` the lines that tell why a search ended. `specs/Watching` says how the clock is
// read, and `specs/Lines` what the lines are; `proofs/Clocks` has what follows from one reading to the next.
#![tactic(auto)]

mod lines;
mod options;
mod watch;

pub use lines::{exit_line, seconds_line};
pub use options::seconds_of;
pub use watch::Watch;
