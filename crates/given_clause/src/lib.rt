// The search of the prover, step by step.
// `state.rt` has the state of a search, `guide.rt` what guides it; contracts see both as `prover_steps` defines them
// (`specs/States`, `Guides`). `stepping.rt` has `step`: a clause of the queue is processed (`processing.rt`), or one is
// picked (`picking.rt`) and given (`giving.rt`). The queue holds conclusions that are too large as they are, and counts
// them in their turn. `keeping.rt` numbers lines and keeps clauses, which stand in memory once, whoever holds them,
// `acting.rt` has what a kept clause does to those held, and `lists.rt` merges lists by number for that.
// With each clause that waits its weight is noted, whether it matches a hint and whether it has a positive literal
// (`waiting.rt`), once when it comes in: a pick looks at no term. `specs/Noted` says that the notes are what the
// setting says; `step` requires and keeps that. Whether a new clause weighs too much is asked before whether one
// subsumes it, which takes longer, but where there are rules of weights or hints it is asked behind.
// Which clauses subsume a new one, rewrite it or deny its literals is found through `clause_index`, and so is what a
// kept clause may do to others (subsume, rewrite, shorten, conflict), asked of both sets; these alone are tested. Which
// units may conflict and which clauses may be put back `specs/Acting` says, and `proofs/Narrowed` that no others need a
// test; of those that a clause may subsume `near_below` says it. A new clause is subsumed by a unit that has a literal
// of it as an instance, or by a longer clause, found by its symbols (`proofs/Subsumed`).
#![tactic(auto)]

mod acting;
mod giving;
mod guide;
mod keeping;
mod lists;
mod picking;
mod processing;
mod state;
mod stepping;
mod waiting;

pub use acting::{Act, Back};
pub use guide::Guide;
pub use picking::{Among, Pick};
pub use state::{FoundProof, QueueEntry, Queued, Reason, Search};
pub use stepping::step;
pub use waiting::{Note, Waiting};
