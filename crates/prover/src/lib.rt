// A search for proofs that is asked for one answer after the other, under a clock.
// `standing.rt` has `Prover`: `new` sets a search up, `run` goes on to the next proof or to the end, `given_step` gives
// one clause and processes what is queued, and `counters`, `lines` and `proofs` tell where it stands. `answer.rt` has
// what `run` answers, `processing.rt` the queue, clause by clause, and `seeking.rt` the clock, read before the first
// clause is processed and before each that is given, with the loop over both. An end is answered again from then on,
// with no look at the clock, and so is want of memory.
// `specs/Answers` says what an answer is: from a state on the first one with a proof more, or the one in which the
// search has ended, or is to give a clause and the time is over; and how often the clock is read between two states.
// `specs/Provers` says what is known of a prover between two calls. In `proofs/`, `Going` has steps one behind the
// other, `Finding` that a clause of the queue gives one proof at most, `Draining` the queue, `Giving` a clause that is
// given, `Readings` how often the clock is read, and `Answering` puts an answer together. `laws.rt` has two proofs of a
// search worked out.
#![tactic(auto)]

mod answer;
mod laws;
mod processing;
mod seeking;
mod standing;

pub use answer::{Counters, ProverAnswer};
pub use laws::worked;
pub use standing::Prover;
