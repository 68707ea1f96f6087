// Tokens of the input language, and the places where they stand.
// `token.rt` has the tokens; `scan.rt` cuts a text into them in one pass, from any place on: `tokens` is the case of a
// whole input with its limit, and `item.rt` cuts off one item at a time, up to the first full stop, so that the tokens
// of a long text need not be held side by side. `numeral.rt` has the numbers that digits write, up to
// 18,446,744,073,709,551,615, or cut off where 32 bits hold them.
// `operators.rt` has the table of operators, with those at the start and what a file declares, by a map that takes no
// memory to look into. A name that begins with a small letter other than `v`, as most do, isn't looked up unless a file
// declared an operator, or none, for such a name. `clause_names.rt` has the names that clauses use, and the operators
// of their texts. `language.rt` has the languages that a text may be in.
// `places.rt` tells the line and the column of a byte. `limits.rt` has the limits of the language by name, which code
// and definitions take from there, and `misuse.rt` a variant for each row of misuse, with its number.
// `specs/Cuts` and `specs/Tokens` say which tokens cut a text, and `laws.rt` that there is one cutting only, with
// examples worked out.
#![tactic(auto)]

mod bytes;
mod clause_names;
mod item;
mod language;
mod laws;
mod limits;
mod misuse;
mod numeral;
mod operators;
mod places;
mod scan;
mod token;

pub use bytes::{is_ordinary, is_special};
pub use item::item_from;
pub use language::Language;
pub use laws::{
    one_cutting, one_numeral, one_operator, worked, worked_clauses, worked_items, worked_operators,
};
pub use limits::{MOST_ARGUMENTS, MOST_BYTES, MOST_ELEMENT, MOST_LEVELS, MOST_NAMES, MOST_SYMBOLS};
pub use misuse::Misuse;
pub use numeral::{is_numeral, number, whole_number};
pub use operators::{DeclareError, Operator, OperatorKind, Ops};
pub use places::{Position, place_of};
pub use scan::{Lex, tokens, tokens_from};
pub use token::{Text, Token, TokenKind};
