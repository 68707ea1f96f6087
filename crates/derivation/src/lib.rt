// Derivations: the rules of inference, the lines of a proof, and what a refutation shows.
// Read the definitions first: `specs/Words` has a rule for each first word of a line, `specs/Later` the words behind
// it, `specs/Rule` what a rule concludes by a most general unifier of all pairs at once, `specs/Lines` derivations and
// refutations, `specs/Refused` why a line is none. `words.rt` and `line.rt` have the words and lines of the code,
// `places.rt` and `equations.rt` what stands at their places, `row.rt` the rows.
// `laws.rt` states that a rule has one conclusion, that a fault is one, and that a refutation is sound, in every
// interpretation, infinite ones too: it leaves none in which the input clauses are true. Whoever asks what an accepted
// proof shows has to believe these definitions.
#![tactic(auto)]

mod equations;
mod laws;
mod line;
mod places;
mod row;
mod words;

pub use equations::{below, is_equation, is_no_variable, is_there, left_of, right_of, sides};
pub use laws::{
    conclusion_is_one, content_is_one, fault_is_one, lines_without_elements, refused_is_none,
    refutation_is_sound, unifier_concludes, worked,
};
pub use line::{Content, Derivation, Just, Line, LineNotes};
pub use places::{are_alike, are_opposite, atom_at, has_literal, has_place, literal_at};
pub use row::Row;
pub use words::{First, Later, Paramodulation, Rewrite, Satellite};
