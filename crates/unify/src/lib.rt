// Most general unifiers and matches of terms of a bank, by bindings that are taken back to a mark, without memory. No
// run calls it, and no law that `run` rests on cites it.
// `bindings.rt` has `Bindings`: terms bound to variables, the oldest first, each a node of a bank in a context
// (`spot.rt`), whose variables are greater by the context. `uniting.rt` goes through the links of classes of nodes in
// the order in which they came, and arguments of linked nodes are merged in turn (`joining.rt`): the list of links is
// also the queue, and nothing goes down by the depth that bindings make of a term. `walking.rt` follows bindings and
// then links. Before a variable is bound, `reaching.rt` lists the nodes that its term leads to, and it mustn't be among
// them; the same list, of the second term, tells `match_onto` which variables are not to be bound. `instancing.rt`
// builds what a term becomes, each node once; that its list of waiting nodes is emptied isn't proved (its loop is
// counted), but what it answers is. With n nodes and v variables bound: n + v steps a walk, n squared an occurs check,
// at most about v times n squared; shared nodes cost nothing more.
// `specs/Bindings` has the substitution that bindings amount to, `Unified` what is answered, `Rooms` how many nodes and
// variables take part: `unify` asks for a list of nodes, closed under arguments and what is bound, no longer than the
// room; what is bound newly is to nodes of it, so whoever listed all terms that he makes the same has room for each.
// The proofs go by what substitutions make of the terms (`Steps`, `proofs/Alikes`, `Classes`). `laws.rt`: bindings
// amount to a most general unifier of all that was made the same; they stay bindings in a bank that grows and where the
// newest are taken away; room for all terms of the bank in each context that occurs is enough.
#![tactic(auto)]

mod bindings;
mod ending;
mod instancing;
mod joining;
mod laws;
mod looking;
mod reaching;
mod spot;
mod uniting;
mod walking;

pub use bindings::Bindings;
pub use laws::{banks_have_room, bindings_stay, resolved_is_most_general};
pub use spot::{Bound, Spot};
