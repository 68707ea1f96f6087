// Lines of a proof as they are written: their number, content and words.
// `line.rt` has `read_line`, which reads a line by its parts (`parts.rt`): a number, the content up to its full stop
// (`content.rt`), read with the operators of formulas and with those of clauses (`operators.rt`), and the words that
// such content allows. First it is tried whether the words are those of a clause and the content is one: then this is
// the line, the content is read once, and whether it is a formula too isn't asked. Else the content is read both ways,
// and what it can be decides which words may follow. The term of a formula isn't kept meanwhile: its tokens are gone
// over once more where the words are those of a formula.
// Once all is read the content is looked at: how deep it is and whether it is a clause (`literals.rt`), what it states
// and breaks (`stating.rt`), and whether it brings a relation that is named like a Skolem symbol (`strays.rt`), where
// the names of the problem's symbols are looked up in a set that is made once for a text.
// Tokens that are no clause are read as a clause with answers behind it: `marks.rt` tells which of them are names because
// an answer begins there (`specs/AnswerMarks`), whatever operators the problem has, and `answered.rt` takes the term that
// is read so apart (`specs/Answered`). The terms of all answers are read behind the clause, in one list (`counted.rt`).
// `specs/Lines` says what tokens are a line, `specs/Faults` which token is bad, by the parts. `laws.rt` states that
// tokens begin with one line at most, that they have one fault at most, and that no line goes on with a bad token.
#![tactic(auto)]

mod answered;
mod content;
mod counted;
mod fault;
mod laws;
mod line;
mod literals;
mod marks;
mod operators;
mod parts;
mod stating;
mod strays;

pub use answered::{AnsweredRaw, MOST_ANSWERED_LEVELS, RawAnswer, read_answered, with_answers};
pub use fault::LineFault;
pub use laws::{bad_tokens_are_bad, marks_look_back, one_fault, one_line, worked, worked_answers};
pub use line::{LineRead, read_line};
pub use literals::{MOST_ATOM_LEVELS, MOST_LITERAL_LEVELS};
pub use marks::{Spot, answer_marks};
pub use operators::LineOperators;
pub use strays::ProblemNames;
