// What a run of the command amounts to: the functions do nothing, and their contracts are the laws.
ghost use Rattle.std.specs.Prelude.{ℕ, List};
ghost use Rattle.ladr_prover9.specs.Askings.{IsSoundQuest};
ghost use Rattle.ladr_prover9.specs.OneEnd.{AsksAreOne, EndIsOne, RunsEndAlike};
ghost use Rattle.ladr_prover9.specs.Quests.{Quest, asks};
ghost use Rattle.ladr_prover9.specs.Shown.{ProofsShow};

use clause_store::ancestors_are_one;
use clausify::axioms_are_in_order;
use derivation::lines_without_elements;
use derivation_laws::{lines_name_no_elements, no_countermodel};
use ladr_formulas::prover_names_no_element;
use ladr_problem::{one_outcome, problems_are_proper, problems_grow};
use prover_proofs::proofs_refute;
use prover_steps::searches_end_once;
use search_lines::{
    files_are_fit, lines_are_fit, orders_of_files_keep_variables, rows_are_of_formulas,
};

/// The order of what a file asks for keeps variables, its clauses are rows of its formulas, and the lines of these say what they
/// say.
pub fn quests_are_sound()
    ensures { (bytes : List ℕ) (q : Quest) → asks bytes q → IsSoundQuest q }
{
    problems_grow();
    files_are_fit();
    rows_are_of_formulas();
    orders_of_files_keep_variables();
}

/// Where no time is over, what bytes ask for comes to one end, with one text, and so do runs with the same bytes.
pub fn one_end()
    ensures asks { AsksAreOne }
    ensures once { EndIsOne }
    ensures alike { RunsEndAlike }
{
    one_outcome();
    searches_end_once();
    ancestors_are_one();
}

/// Where a proof's banner stands in the output of a run, there stands the text of a refutation of the problem. Where no time is
/// over, runs with the same bytes come to the same end, with the same text.
pub fn proofs_show()
    ensures show { ProofsShow }
    ensures asks { AsksAreOne }
    ensures once { EndIsOne }
    ensures alike { RunsEndAlike }
{
    one_end();
    one_outcome();
    problems_grow();
    problems_are_proper();
    prover_names_no_element();
    quests_are_sound();
    proofs_refute();
    lines_are_fit();
    lines_name_no_elements();
    lines_without_elements();
    no_countermodel();
    axioms_are_in_order();
}
