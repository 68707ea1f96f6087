// Terms by number: equal terms stand once, so that two numbers are equal exactly where the terms are.
// `id.rt` has numbers of terms, and terms by the numbers of their arguments. `bank.rt` has `Bank`, which keeps of each
// term its head and the numbers of its arguments (`cell.rt`), under the number that is its place in an
// insertion-ordered map; its size and levels stand beside it, so that no term is walked for them. `specs/Bank` says
// what a bank's numbers mean.
#![tactic(auto)]

mod bank;
mod cell;
mod id;
mod laws;

pub use bank::Bank;
pub use id::{Node, TermId};
pub use laws::worked;
