// What a file says to a program: its problem with its settings, or the first refusal with its place.
// `read.rt` has `read_problem`, which takes the items of a text, and tells the place of a refusal, for which it goes
// over the items once more. `file.rt` goes through the items, and holds the tokens of one at a time (`item.rt`);
// `draft.rt` has what was read so far, `take.rt` takes one item, `formulas.rt` a formula of a list, `distinct.rt` names
// that are to differ, `rules.rt` a rule of weights. `refusal.rt` has the refusals and places, `stop.rt` a refusal that knows its byte alone.
// `list_items.rt` reads an item of a list, which is `end_of_list.`, a term, or in a list of names that are to differ
// names in square brackets. `end_of_list.` ends a list whatever `op` declared, so where tokens begin with it the answer
// is known before they are read further; elsewhere the bad token that is named is the one of terms or of names
// (`proofs/EndLemmas`).
// `specs/` says the same without code: `File` the items one behind the other, `Adding` what an item adds, `Sofar` what
// was read so far, `Places` the line, the column and the token of a byte; the other files see the code's data as these.
// `Growth` has how what is read grows, whatever text says it; each property of problems is an induction over it.
// `laws.rt` states that a file says one thing at most, and that what it says has grown, and has files worked out.
#![tactic(auto)]

mod distinct;
mod draft;
mod file;
mod formulas;
mod item;
mod item_laws;
mod laws;
mod list_items;
mod read;
mod refusal;
mod rules;
mod stop;
mod take;

pub use item_laws::{one_item, same_tokens, worked_cuts, worked_item_faults, worked_items};
pub use laws::{one_outcome, problems_are_proper, problems_grow, worked, worked_formulas};
pub use read::{FileRead, read_problem, shown, shown_byte};
pub use refusal::{Limit, Place, ReadError};
