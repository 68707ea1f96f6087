// Finite interpretations given by tables, and truth in them.
// `tables.rt` has an interpretation by a list of values for each symbol number, `env.rt` the elements that variables
// have, `evaluate.rt` finds values and truth. `closures.rt` tells the truth of a closure: it steps through the elements
// of the free variables in a loop, so that many variables take no stack, and it takes no memory, given the room that
// `room.rt` makes. `sizes.rt` has the size that a problem needs and what values are below, `limits.rt` the limits;
// `text.rt` makes the text of tables, of the parts that `entries.rt` writes of any interpretation.
// The values of Skolem symbols (`specs/Expansion`) are definitions alone, which the laws of the search for models rest
// on. `laws.rt` states what holds of the text, of renamings (`specs/Isomorphism`) and of the values of Skolem symbols,
// and has tables worked out.
// What is used above: the truth of a closure in tables, told without memory; the laws of least witnesses; the text and
// its parts.
#![tactic(auto)]

mod closures;
mod entries;
mod env;
mod evaluate;
mod laws;
mod limits;
mod room;
mod sizes;
mod tables;

pub use closures::closure_truth;
pub use entries::{put_end, put_entry, text_beginning};
pub use env::Env;
pub use evaluate::{truth, value};
pub use laws::{expansions, is_isomorphic_to_itself, worked, worked_expansions};
pub use limits::MOST_CELLS;
pub use room::reserve_closure;
pub use sizes::{bound, size_needed};
pub use tables::{TableRow, Tables};
pub use text::interpretation_text;

mod text;
