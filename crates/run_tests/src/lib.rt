// Runs over streams in memory.
// `runs.rt` runs the program, `texts.rt` has the inputs and outputs; `streams.rt` has tests of reads and writes,
// `clocks.rt` of clocks, and `sweeps.rt` of each call of a run that fails in turn. Tests are proved with all that they
// stand on, so they are proved faster in a crate of their own.
#![tactic(auto)]

#[cfg(test)]
mod clocks;
#[cfg(test)]
mod runs;
#[cfg(test)]
mod streams;
#[cfg(test)]
mod sweeps;
#[cfg(test)]
mod texts;
