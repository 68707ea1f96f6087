// What a run prints: texts are made whole and then written, and what cuts the output off is told.
// `parts.rt` puts bytes and numbers behind a text, `pieces.rt` writes a text that was made whole, and `cut.rt` has what
// cuts an output off: a write that failed, or want of memory. `specs/Telling` says what a run tells of its output, by
// the texts that may stand while it goes on and those that it ends with, and `specs/Standing` what it is for a text to
// stand in an output, where a line begins. `proofs/Standing` has the lemmas on texts line by line.
// The contracts say which text was written, or a front of it.
#![tactic(auto)]

mod cut;
mod parts;
mod pieces;

pub use cut::Cut;
pub use parts::{decimal, text};
pub use pieces::{ending, piece};
