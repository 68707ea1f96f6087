// The words of a proof's lines: how each is spelled, and which token is the first bad one.
// `reading.rt` has `read_words`, which reads the name of the first word and its numbers, places and path, and
// `steps.rt` the words behind it, part by part (`parts.rt`), along tokens of which some are passed (`cursor.rt`).
// `class.rt` tells which tokens may stand at a place, `names.rt` the names of words and the places that `a`, `b`, ..,
// `aa`, .. name.
// `specs/Spelling` is the grammar as a value: what may stand at a place, and what that decides; `specs/Written` has the
// words as they are written, and what they mean as words of a derivation.
#![tactic(auto)]

mod class;
mod cursor;
mod fault;
mod laws;
mod names;
mod parts;
mod reading;
mod steps;

pub use fault::WordsFault;
pub use laws::{one_reading, words_mean, worked};
pub use names::ContentKind;
pub use reading::read_words;
