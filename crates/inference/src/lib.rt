// The kernel: what the words of a line come to, on parents that are lent.
// A first word: `rules.rt` has one function for each rule, with the rule above it. Each looks whether its places are
// there (`fitting.rt`), hands the terms that have to be equal to `term_unifiers`, and lists the literals that it leaves
// (`leaving.rt`, `left.rt`), which are lent too: `applying.rt` does that, and hands out the unifier and what is left
// (`applied.rt`). `concluding.rt` then measures what they are under the unifier, exactly
// and before any of it is built (`measuring.rt`), and builds the conclusion with its variables numbered as they come
// (`building.rt`), or hands it on unbuilt where it is too large for a search (`large.rt`). `judging.rt` leads from a word
// to its rule; `clashing.rt` tells alone whether a clash has a unifier.
// `instance.rt` makes the instance of a clause that terms for its variables give, which is no rule's conclusion.
// A later word: `words.rt` has one function for each, on any clause whose words are being followed (`underway.rt`), as a
// plain clause, which is changed in place (`plain.rt`, `changing.rt`). `rewriting.rt` tells the sides of a rule, and
// `putting.rt` what it makes of a term, counted before it is built; `sizing.rt` measures the whole clause first, where it
// may not become too large for a search. `specs/Followed` says what a later word comes to.
// The search and `check` call these same functions. `specs/Left` says what is left of parents, `specs/Judged` what a rule
// comes to; the rules themselves are those of `derivation`.
#![tactic(auto)]

mod applied;
mod applying;
mod building;
mod changing;
mod clashing;
mod concluding;
mod fitting;
mod followed;
mod instance;
mod judging;
mod large;
mod leaving;
mod left;
mod measuring;
mod plain;
mod putting;
mod rewriting;
mod rules;
mod sizing;
mod underway;
mod words;

pub use applied::{Applied, Premises};
pub use changing::{exchange, take_out, turn_at};
pub use clashing::can_clash;
pub use followed::Followed;
pub use instance::{Instantiated, LargeInstance, instantiate};
pub use judging::{apply_rule, judge};
pub use large::{LargeClause, LargeConclusion};
pub use left::{Change, Left};
pub use putting::match_of;
pub use rewriting::rule_sides;
pub use rules::{Judged, Putting, clash, copy, factor, paramodulate, reflexivity};
pub use sizing::put_small;
pub use underway::{Put, Underway};
pub use words::{delete_unit, drop_reflexive, flip, follow, merge, rewrite};
