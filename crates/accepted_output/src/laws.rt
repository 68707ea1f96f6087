// What a check makes of the output of a search for proofs: the function does nothing, and its contract is the law.
ghost use Rattle.accepted_output.specs.Accepted.{OutputsAreAccepted, ProofsSoFarAreAccepted};

use derivation_laws::lines_stay_in;
use ladr_models::formulas_state_themselves;
use ladr_problem::{one_outcome, problems_are_proper, problems_grow};
use ladr_prover9::quests_are_sound;
use printed_proofs::{files_can_be_printed, printed_refutations_are_accepted};
use prover_proofs::proofs_refute;
use prover_steps::ends_have_reasons;
use search_lines::{fit_rows_are_lines, lines_are_fit, rows_of_files_are_fit};

/// A check accepts the whole output of a run that came to an end of its own and tells that the problem is proved; and what a run
/// wrote before memory was lacking, where a proof stands in it.
pub fn outputs_are_accepted()
    ensures accepted { OutputsAreAccepted }
    ensures so_far { ProofsSoFarAreAccepted }
{
    one_outcome();
    problems_grow();
    problems_are_proper();
    formulas_state_themselves();
    quests_are_sound();
    proofs_refute();
    ends_have_reasons();
    files_can_be_printed();
    rows_of_files_are_fit();
    fit_rows_are_lines();
    lines_stay_in();
    lines_are_fit();
    printed_refutations_are_accepted();
}
