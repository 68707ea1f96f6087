// The printed text of the words of a proof's lines.
// `words.rt` has `add_words`, which adds the first word, the words behind it and `].` to a text; rewritings side by
// side share one `rewrite([..])`. `specs/WordTokens` says which tokens words are printed as, and `specs/Sayable` which
// words can be said: those with short numbers, a satellite in each clash and a number in each path. `laws.rt` states
// that the tokens say the words again.
#![tactic(auto)]

mod laws;
mod words;

pub use laws::{literals_are_named, words_are_said, worked_words};
pub use words::add_words;
