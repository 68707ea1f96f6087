// The printed text of proofs: of a line's content, of lines, and of a proof with its head and banners.
// `texts.rt` has `proof_bytes`, which makes a proof with its banners and its head, and `frame_text`, the problem's
// bytes behind the line that counts them; `lines.rt` has the text of a line: its number, its content and its words, and
// `answered.rt` that of a clause with answers (`specs/AnsweredTexts`).
// `specs/LineTexts` says what the texts are, `specs/Rereadable` which symbols and clauses are read as themselves behind
// a table, `specs/Formulas` which formulas, and `specs/Reread` what printed contents and lines are read as. `laws.rt`
// states that the text is cut into tokens that are read as the lines, and that symbols of formulas and Skolem symbols
// are readable in clauses.
#![tactic(auto)]

mod answered;
mod laws;
mod lines;
mod texts;

pub use answered::answered_text;
pub use laws::{
    answered_clauses_read_back, contents_read_back, formulas_are_printable, lines_read_back,
    symbols_are_readable, words_are_cut, worked_texts,
};
pub use texts::{Heads, frame_text, proof_bytes};
