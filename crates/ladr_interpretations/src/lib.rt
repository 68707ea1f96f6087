// Interpretations by the names of their symbols, the tables that they give to symbols, and the formulas that these
// cover.
// `named.rt` has `Named`, an interpretation that was read and found to be one: a good size, each table filled, no
// symbol twice, which is an invariant of the type; and `bind`, the tables that it gives to the symbols of a problem.
// `covering.rt` goes through a formula and asks tables for an entry for each symbol and an element for each number,
// without memory; that its test says just this of all symbols and numbers is a law of `laws.rt`. `specs/Good` has the
// definitions, `laws.rt` also interpretations worked out. `several.rt` has those of a file, in their order; `text.rt`
// writes one again, as it was read (`specs/NamedText`).
#![tactic(auto)]

mod covering;
mod laws;
mod named;
mod several;
mod text;

pub use covering::covers;
pub use laws::{covers_all, worked, worked_covers};
pub use named::{Named, NamedError, bind};
pub use several::Interpretations;
pub use text::named_text;
