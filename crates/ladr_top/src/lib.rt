// The one public call of the program, `run`: words, the commands, the exit status.
// `running.rt` has `run`, which is a page: words, the command, its end, the exit status. `cause.rt` has the causes for
// which a run ends: a command's own ends are nested in one variant, so that a new command adds a variant, a line of
// `status_of` and a clause of `run`. `lines.rt` has the line for words that are no command, `limits.rt` the limits by
// their numbers, `names.rt` what items of names add.
// The laws on what stands in outputs are called where `run` begins: `checks_show` of `ladr_check`, `searches_show` of
// `ladr_mace4`, `proofs_show` of `ladr_prover9`, `outputs_are_accepted` of `accepted_output` and `filters_read_back` of
// `ladr_clausetester`. `specs/Runs` says what a run of each command amounts to, by the definitions of the commands'
// crates, and `specs/Causes` has the statuses; `proofs/Lacking` has runs in which memory was lacking before a command
// began, and `Checked` what becomes of the law on accepted outputs by how a run ended.
// The way of each command through the crates is drawn in `docs/crates.md`.
#![tactic(auto)]

mod cause;
mod limits;
mod lines;
mod names;
mod running;

pub use cause::{Cause, CheckEnd, Exit, Limit, Place, ProverEnd, Refused, SearchEnd, Tested};
pub use running::run;
