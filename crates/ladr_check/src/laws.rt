// What checks amount to, and reports worked out: the functions do nothing, and their contracts are the laws.
ghost use Rattle.std.specs.Prelude.{◌≡◌, codes};
ghost use Rattle.answered_lines.specs.Laws.{PlainRefutationsStay};
ghost use Rattle.ladr_check.specs.CheckReport.{check_report};
ghost use Rattle.ladr_check.specs.Outcomes.{EndIsOne};
ghost use Rattle.ladr_check.specs.Shown.{OneRefutationSuffices, RefutationsAnswer, OffersAreAlone, RefusalsAreAlone, ChecksShow};
ghost use Rattle.derivation_laws.specs.Countermodels.{RefutedHaveNone};
ghost use Rattle.derivation.specs.declared.row.Row.TheVariants.{Misplaced};
ghost use Rattle.ladr_check.specs.declared.ends.CheckEnd.TheVariants.{Accepted, NotAccepted, ClauseLimit};

use answered_lines::{
    fault_is_one_with, lines_are_plain, plain_lines_stay, refutations_show_answers,
};
use derivation::lines_without_elements;
use derivation_laws::{no_countermodel, refuted_have_none};
use ladr_formulas::prover_names_no_element;
use ladr_problem::{one_outcome, problems_are_proper, problems_grow};
use proof_lines::{bad_tokens_are_bad, one_fault, one_line};

/// What is offered comes out in one way.
pub fn one_end()
    ensures { EndIsOne }
{
    fault_is_one_with();
}

/// Where one proof of a text is a refutation, no interpretation, finite or infinite, whose Skolem symbols pick witnesses makes each
/// assumption of its problem true and each goal false.
pub fn one_refutation_suffices()
    ensures { OneRefutationSuffices }
{
    lines_are_plain();
    lines_without_elements();
    no_countermodel();
    problems_grow();
    problems_are_proper();
    prover_names_no_element();
}

/// Where a proof of a text is a refutation, it shows its answers, in every interpretation, finite or infinite, whose Skolem symbols
/// pick witnesses and that makes all of its problem but the goals true: some answer on its last line is true under each assignment,
/// or some goal whose line asks for nothing.
pub fn refutations_answer()
    ensures { RefutationsAnswer }
{
    refutations_show_answers();
    lines_without_elements();
    problems_grow();
    problems_are_proper();
    prover_names_no_element();
}

/// Bytes that offer something offer nothing else, and they aren't refused.
pub fn offers_are_alone()
    ensures { OffersAreAlone }
{
    one_outcome();
    one_line();
    bad_tokens_are_bad();
}

/// Bytes that are refused are refused in one way, with one place, of byte, line, column and token, and they offer nothing.
pub fn refusals_are_alone()
    ensures { RefusalsAreAlone }
{
    one_outcome();
    one_line();
    one_fault();
    bad_tokens_are_bad();
}

/// Where the line of an accepted proof stands in the output of a run, that proof is a refutation; where the line stands that all
/// are accepted, each of them is; and refutations show their answers. So it is whatever became of the run; what is offered comes
/// out in one way, and what is refused is refused in one way. Lines of which none asks for something or has answers are a
/// refutation where they are one without: so older proofs stay accepted.
pub fn checks_show()
    ensures show { ChecksShow }
    ensures once { EndIsOne }
    ensures alone { RefusalsAreAlone }
    ensures none { RefutedHaveNone }
    ensures older { PlainRefutationsStay }
{
    refuted_have_none();
    plain_lines_stay();
    one_refutation_suffices();
    refutations_answer();
    offers_are_alone();
    refusals_are_alone();
    one_end();
}

/// Reports on two proofs that are accepted, on a second one that isn't, and on a formula with too many clauses.
pub fn worked()
    ensures accepted { check_report 2 (Accepted 2)
        ≡ codes "% Proof 1 accepted.\n% Proof 2 accepted.\n% Exit accepted 2.\n" }
    ensures not_accepted { check_report 1 (NotAccepted 7 Misplaced)
        ≡ codes "% Proof 1 accepted.\nladr: not accepted, line 7, cause 6\n" }
    ensures limit { check_report 0 (ClauseLimit 3)
        ≡ codes "ladr: clause limit at formula 3\n" }
{}
