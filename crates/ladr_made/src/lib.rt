// The command that makes a problem, proves it, checks its proof, and looks for a model of it without its goal, all in
// memory.
// `making.rt` is the story of a run: `chain.rt` makes the texts of the problem, `proving.rt` has a search for proofs of
// it write into memory and checks what it wrote, `modelling.rt` searches for a model at one size after the other, and
// `summary.rt` makes the lines of what came of these, `parts.rt`. `laws.rt` has two problems and a summary worked out.
// In `specs/`, `Chain` says what is generated, `Proving` and `Modelling` what becomes of the searches, by the
// definitions of the commands' own crates, `Summary` what is printed, and `Making` what a run amounts to. In `proofs/`,
// `Memory` has runs over streams in memory, `Accepting` that an output with a proof in it says so and is therefore
// accepted, `Sizes` the search from one size to the next, and `Summing` the summary and the run that prints it.
#![tactic(auto)]

mod chain;
mod laws;
mod making;
mod modelling;
mod parts;
mod proving;
mod summary;

pub use laws::worked;
pub use making::made;
