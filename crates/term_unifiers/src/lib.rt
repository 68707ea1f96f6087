// Most general unifiers by classes of nodes, near linear in their number: each pair that is looked at merges two
// classes or is dropped.
// `node.rt` has an arena: nodes by number, arguments of each in one list, and each variable's node (`naming.rt`:
// sixteen in a list, further ones in a tree; nothing is hashed); `arena.rt` puts terms in, arguments before their node,
// so that each node has a tree (`specs/Shapes`, `Arenas`).
// Nodes are linked to lesser ones of their class (`linking.rt`), down to the least, which keeps a schema, a node that
// is no variable where there is one; `merging.rt` goes through pairs that have to be the same until none is left,
// `comparing.rt` compares heads. `ordering.rt` finds, with a stack of its own, an order in which each class stands
// behind those of its schema's arguments; a class met on the way from itself would have a term smaller than itself, so
// nothing unifies (`proofs/Walks`, `Advances`, `AtOnce`). Along it `measuring.rt` counts symbols and levels of each
// class's term, up to the greatest number of 64 bits; `instances.rt` finds the class of a variable.
// Callers put terms in by `pairs.rt`: pairs of terms of so many clauses, each renamed by its clause's place as it is put in
// (`apart.rt`). Such a variable is a number of 128 bits, so that there is one for every variable of a clause. Room comes
// before any merge (`room.rt`): never more pairs than the arena has arguments, since a merge brings at most as many as the
// applications have and takes a class away (`specs/Rooms`). What then decides and solves (`unifying.rt`) takes no memory;
// `Solution` is seen as the bindings of variables. Terms of the clauses under it are measured (`sizes.rt`) before any is
// built, and written (`writing.rt`) with their variables numbered by first occurrence as they come (`numbers.rt`), so that
// none of 128 bits leaves this crate; or they are put into a bank, where each class's term stands once (`sharing.rt`).
// `TermPair` numbers two terms' variables evenly and oddly, and only tells whether they unify.
// The proof speaks of labels, a term for each node, which fit where linked and paired nodes have one. What fits later
// fits before; what a substitution makes of the trees fits later if before; the classes' terms along the order fit and
// respect the heads (`specs/Classes`): a most general unifier (`proofs/Terms`, `Solving`).
#![tactic(auto)]

mod apart;
mod arena;
mod comparing;
mod entered;
mod found;
mod instances;
mod laws;
mod linking;
mod measuring;
mod merging;
mod naming;
mod node;
mod numbers;
mod ordering;
mod paired;
mod pairs;
mod room;
mod sharing;
mod sizes;
mod solution;
mod unifying;
mod walk;
mod work;
mod writing;

pub use apart::TermPair;
pub use laws::worked;
pub use numbers::Numbers;
pub use pairs::Pairs;
pub use sharing::{OfParent, Shared};
pub use solution::Solution;
