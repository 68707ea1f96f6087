// An index of terms under numbers: which are generalizations or instances of a term, or unify with it; and sieves.
// `index.rt` has `Index`: terms by rising number, which contracts see, and a discrimination tree (`nodes.rt`). A path
// is a term's symbols in preorder, with one step for any variable (`edge.rt`). `walk.rt` goes along a term: by its own
// steps, past whole terms of the tree where it has a variable, and by the step of a variable past one of its own;
// `skipping.rt` skips (that its loop ends isn't proved, it is counted up to 2^64; its answer is). The walk reaches all
// entries that fit (`proofs/Fitted`), and those alone that would fit if each occurrence of a variable were another
// variable (`proofs/Returning`, `specs/Linear`).
// Each number reached is confirmed (`seeking.rt`, `comparing.rt`), so answers are exact; `near` hands them out
// untested. `hints.rt` tells where an entry stands by its number's lowest bits, or it is found by halves. With few
// variables, none very deep or behind fifteen arguments, an entry keeps each place of a variable with the next of the
// same one (`once.rt`; a place is a number, four bits a level, `specs/Places`): it is more general just where the other
// term has the same part at both (`proofs/Repeated`). Else the packed term is unpacked, or the term was kept.
// `meeting.rt` first compares heads, then tries instances, then `term_unifiers` decides. `Tries` (`tries.rt`) counts
// tests and lends room; the least number is sought by tests up to the first that passes.
// Nodes stand in a `slab`, linked to the one above, with one number or branch in the node itself (`contents.rt`; no
// branch of a symbol with 2^16 arguments, or to a key above 32 bits), or lists, of which four branches are gone
// through, more by halves. Taking out follows the packed path down (`packed.rt`) and the links up, without memory; a
// path that couldn't be finished for want of memory is taken out alike. Nodes are a tree (`specs/Trees`), as many as
// distinct beginnings of paths (`specs/Beginnings`, `proofs/Counting`).
// `sieve.rt` has `Sieve`, the tree alone: it leaves out no number under a term that is sought, and may answer others.
// `marks.rt` has `MarkSieve`, a tree of lists of marks: numbers under lists with no marks but some, and under rising
// lists with all of some, unless it would meet more nodes than it is told, or one with more numbers or branches than
// that (in no clause; `marking.rt`, `specs/Marking`). `laws.rt` says what the tests mean by substitutions.
#![tactic(auto)]

mod comparing;
mod contents;
mod edge;
mod entry;
mod hints;
mod index;
mod laws;
mod marking;
mod marks;
mod meeting;
mod nodes;
mod once;
mod packed;
mod seeking;
mod sieve;
mod skipping;
mod sought;
mod tries;
mod walk;

pub use index::Index;
pub use laws::{tests_are_exact, worked};
pub use marks::MarkSieve;
pub use meeting::may_meet;
pub use seeking::put_in_order;
pub use sieve::Sieve;
pub use sought::Sought;
pub use tries::Tries;
