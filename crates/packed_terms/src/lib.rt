// Terms in four bytes a node: what stands at each node, from the left.
// `packed.rt` has `PackedTerm`: the heads of a term's nodes (`head.rt`, `packing.rt`) in four bytes each (`codes.rt`;
// the greatest number of sixteen bits stands for equality), or, where one number of a term has no room in sixteen bits,
// in the form in which it is handed out (`form.rt`). The lists have room for as many nodes as there are and no more.
// A term is made again by a loop from its last node to the first, with a stack of terms (`unpacking.rt`): a symbol
// takes as many from the top as it has arguments. `specs/Building` says so, and `proofs/Heads` that it gives the term.
// What stands at a node is told without memory.
#![tactic(auto)]

mod codes;
mod form;
mod head;
mod laws;
mod packed;
mod packing;
mod unpacking;

pub use head::Head;
pub use laws::worked;
pub use packed::PackedTerm;
