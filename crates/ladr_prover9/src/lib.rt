// The command that searches for proofs of what an input states.
// `commanding.rt` is the story of a run: the input is read, clauses are made and what is asked is put together
// (`asking.rt`), the input is printed in its frame, proofs are searched for, and the last lines are printed
// (`lines.rt`; `ends.rt` has the ends and statuses). `searching.rt` asks a `prover` for one answer after the other, and
// prints each proof as it comes (`printing.rt`: lines that `prover_proofs` takes out, by `proof_print`). `counting.rt`
// has what was counted, with the lines and levels of the first proof: `prove_counted` answers this beside the end,
// which is all that `prover9` hands on.
// In `specs/`, `Quests` says what a file's bytes ask for, `Story` how a search goes and ends, and how often the clock
// was read, `ProofTexts` and `Lines` what is printed, `Statuses` the statuses, `Finding` what a run amounts to,
// `Counting` the same with what was counted, `Shown` what stands in its output to those who asked, `OneEnd` that runs
// end alike, `Nothing` what is known where nothing was read, `Askings` what the code has of all this.
// `laws.rt`: what a file asks for is sound; what stands in the output, whatever became of the run; runs with the same
// bytes end alike where no time is over. In `proofs/`, `Seeking` has the search from answer to answer, `Steps` texts of
// states, `ProofTexts` of a proof, `Telling` what a run amounts to, with its numbers, of which `Ending` keeps the end.
// `Reading`, `Sounding`: the code has what the file asks for, which is sound; `Knowing`: lines that a proof rests on
// are a refutation; `FileElements`, `Elementless`: no formula, clause nor, by `derivation_laws`, line names an element;
// `Leaving`: no countermodel is left. `FileNames`, `Unbroken`, `Numbered`: each line of a proof is printed as one line
// that begins with its number, since no name has a line's end in it; so a banner stands only where a proof begins, and
// `THEOREM PROVED` only behind one (`StandingProofs`, `Showing`).
#![tactic(auto)]

mod asking;
mod commanding;
mod counting;
mod ends;
mod laws;
mod lines;
mod printing;
mod searching;

pub use commanding::{prove_counted, prover9};
pub use ends::{ProverEnd, ProverOver};
pub use laws::{one_end, proofs_show, quests_are_sound};
