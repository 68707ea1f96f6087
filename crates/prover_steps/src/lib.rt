// The steps of the prover's search, as definitions and laws; no code. The crates above are proved against these
// definitions.
// Conclusions: `specs/Concluded` works out what a rule concludes of clauses: variables interleaved, pairs unified by
// the first difference, the rest numbered. `Clashing` and `Equalities` list the conclusions of a given clause, one rule
// after the other, `Conclusions` has which rules are in force and all conclusions. `Picking` says which clause is given
// next; `Rewriting`, `Shortening` and `Subsuming` what becomes of a clause of the queue: it is rewritten step by step,
// sides of equations are exchanged, literals left out, and one that a held clause subsumes is dropped.
// The search: `Searching` has its state and the next one, by small functions: a clause of the queue is processed, with
// what it does to others, or one is given. `Starting` is where a search begins. `HeldOrder` says how clauses stand by
// their numbers, `OrderLaws` what keeps them so. `Ending` counts what is left to be given and processed, and says what
// the reason of an end tells and what limits the counters keep; `LineNumbers` how lines are numbered.
// `laws.rt`: what is worked out is what a rule concludes, each way; conclusions are steps from lines that have their
// parents; a clause rewritten and put in order is what its words make of it; subsumption is one substitution with
// different places; a search begins with a derivation, and in each state that it reaches the lines are one, have what
// is held, and end in the empty clause where a proof was found; states are in order and within their limits; a search
// ends, in one state at most, and what is told of its end is true.
#![tactic(auto)]

mod laws;

pub use laws::{
    clauses_are_put_in_order, clauses_are_rewritten, clauses_stay_in_order, conclusions_are_steps,
    ends_have_reasons, lines_are_counted, orders_keep_variables, rewriting_stops,
    searches_are_sound, searches_end, searches_end_once, searches_start_well,
    searches_stay_in_order, steps_are_worked_out, steps_keep_order, subsumption_is_found, worked,
};
