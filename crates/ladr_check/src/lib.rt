// The command that checks the proofs of an input.
// `checking.rt` is the story of a run: `judging.rt` makes the clauses of the problem and checks the proofs one after
// the other, `report.rt` makes the lines, and `ends.rt` has how a check ends, with its status. `check_bytes`, beside it,
// does the same with a text that is held in memory, whatever its length, and prints nothing; what it answers (`checked.rt`)
// nothing else can make.
// `specs/Offered` is what bytes offer, `specs/Outcomes` how the check of it comes out, `specs/Shown` what stands in the
// output. `laws.rt`: bytes offer one thing, or are refused in one way; a check comes out in one way; one accepted proof
// leaves no countermodel; what stands in an output is so whatever became of the run.
// In `proofs/`, `LinesKept` shows that lines of proofs leave the numbers of symbols as they are, and bring no relation
// that a Skolem symbol could clash with, `Nameless` that they name no element; `Refusing` that a refusal is one line,
// so that no token of an input can pass for a line of the report, and `Standing` which lines stand in a report.
// `OneFrame`, `OneReading` and `OneOffer` show that bytes have one frame, one list of blocks and one reading of the
// lines, and then no fault; `OneRefusal` that else they have one fault, with one place.
#![tactic(auto)]

mod checked;
mod checking;
mod ends;
mod judging;
mod laws;
mod report;

pub use checked::Checked;
pub use checking::{check_bytes, check_text};
pub use ends::CheckEnd;
pub use laws::{
    checks_show, offers_are_alone, one_end, one_refutation_suffices, refusals_are_alone,
    refutations_answer, worked,
};
