// What steps make of answers, as code: `instance.rt` what the terms that a line gives make of a clause and its answers, and
// `carried.rt` a clause with its answers along a line's words, on shared terms, so that none is too large. There the answers are
// literals behind those of the clause (`packing.rt`, `specs/Whole`): `starting.rt` makes both of what a rule takes, `leading.rt`
// follows a word on them, `bringing.rt` puts the answers of a unit or a rule behind, with new variables above all (`fresh.rt`), and
// `keeping.rt` takes out those that stand before. `comparing.rt` tells whether they are a line's. `laws.rt` has the laws for who goes
// along a line's words (`specs/Leading`).
#![tactic(auto)]

mod bringing;
mod carried;
mod comparing;
mod fresh;
mod instance;
mod keeping;
mod laws;
mod leading;
mod packing;
mod starting;

pub use carried::AnsweredClause;
pub use instance::put_in;
pub use laws::{answers_are_led, words_stay_before};
