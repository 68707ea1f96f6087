// What is printed of an interpretation, and of a file's formulas, reads back. There is no code in it.
// Tables: the text that `model_tables` makes of an interpretation is cut into tokens which `ladr_commands` reads, and
// of which `ladr_interpretations` gives back the tables; one is worked out. `specs/ReadsBack` says which tables that
// holds of, and what it is to read back. A text above 16,777,216 bytes has tokens too, which `ladr_lex` refuses to
// make: the law says nothing of that limit. In `proofs/`, `Writing` finds the tokens of the text, `Parsing` what they
// say, `Tabling` what tables come of it. An interpretation of a file, written again as it was read, reads back as it:
// its names are symbols of the language (`Named`), as those of a problem's symbols are.
// Formulas: each formula and hint of a file, printed with the operators and symbols at the file's end, is stated by its
// text behind these symbols (`specs/Printed`). Operators and the style of variables can't be changed once a list was
// opened, so those at the end are those that every formula was read with (`proofs/Settled`); what is kept of a formula
// as it is read is enough to print it (`proofs/Restating`).
#![tactic(auto)]

mod laws;

pub use laws::{formulas_state_themselves, interpretations_read_back, texts_read_back, worked};
