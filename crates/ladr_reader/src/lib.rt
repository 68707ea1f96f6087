// From tokens to terms.
// What tokens are a term is defined by how they split (`specs/Reads`), without any machine. `read.rt` reads that term
// in one pass with a stack (`step.rt`, `stack.rt`), so that no depth of nesting takes more than memory, and is proved
// to find just that. The term under construction stands in one place (`place.rt`), which is lent by who asks for the
// term, and each step changes it there.
// `disjuncts.rt` keeps a term along its right spine of `|` as a list of disjuncts, so that only a disjunct has to keep
// to the limit of levels, and a clause of many literals is never a deep tree; `capped.rt` builds trees no deeper than
// is asked.
// As soon as so much waits that an item can only be too deep (`specs/Depths`), the pass frees what it has built, and
// `recognizing.rt` goes over the tokens again: it tells whether they are an item at all, and keeps of what waits four
// bytes apiece, a side and a precedence, but no names and no trees (`waits.rt`, `specs/Control`).
// `front.rt` reads the term at the front of tokens, up to a delimiter (`specs/Fronts`), and `read_marked` reads tokens of which
// some are names whatever was declared of them (`specs/Marks`).
// `laws.rt` states that tokens are one term at most, and has terms and faults worked out. Answered is the one term that
// tokens are, or the first bad token (`fault.rt`).
#![tactic(auto)]

mod capped;
mod disjuncts;
mod fault;
mod front;
mod laws;
mod nesting;
mod place;
mod read;
mod recognizing;
mod roles;
mod sides;
mod stack;
mod step;
mod waits;

pub use fault::TermFault;
pub use front::read_front;
pub use laws::{
    one_reading, quoted_symbols, worked_declared, worked_disjuncts, worked_faults, worked_levels,
    worked_terms,
};
pub use read::{read_literals, read_marked, read_term, read_tree};
pub use roles::quantifier_of;
