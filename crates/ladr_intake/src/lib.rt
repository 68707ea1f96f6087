// Takes an input in: reads it whole, or prints why it is refused.
// `taking.rt` reads the input whole; `refusing.rt` hands on what was read of it, or prints why it is refused, with the
// lines of `lines.rt`; `stops.rt` has why a command comes to no end of its own.
// `specs/Posed` is what bytes pose to a command, `specs/Language` what a language of problems is, and `specs/Command`
// what a run of a command amounts to that reads an input, whatever the language: another one can come beside this one
// without a second copy of these, since the commands' definitions take it as a parameter, and their contracts and
// `ladr_top` name it. `laws.rt` states that files are such a language.
#![tactic(auto)]

mod laws;
mod lines;
mod refusing;
mod stops;
mod taking;

pub use ladr_problem::{Limit, Place};
pub use laws::files_are_a_language;
pub use lines::clause_limit;
pub use refusing::or_refused;
pub use stops::{Refused, Stop};
pub use taking::take_bytes;
