// Laws of the lines that a search makes: the function does nothing, and its contract is the laws.
ghost use Rattle.std.specs.Prelude.{◌≡◌, ◌≤◌, false, ℕ, List};
ghost use Rattle.search_lines.specs.Shapes.{StartIsFit, NextIsFit, ReachedAreFit, MadeLinesAreFit};
ghost use Rattle.clausify.specs.Input.{clauses_in_table, all_rows};
ghost use Rattle.fol_core.specs.Literals.{ClauseTree};
ghost use Rattle.fol_problem.specs.Stated.{stated_of, Said};
ghost use Rattle.fol_core.specs.SymbolTable.{Symbol};
ghost use Rattle.ladr_formulas.specs.declared.styles.Mode.TheVariants.{Prover};
ghost use Rattle.ladr_print.specs.ClauseText.{clause_raw};
ghost use Rattle.ladr_print.specs.TermText.{Naming};
ghost use Rattle.ladr_problem.specs.Growth.{Grown};
ghost use Rattle.ladr_problem.specs.Sofar.{Sofar};
ghost use Rattle.ladr_problem.specs.Whole.{IsOf};
ghost use Rattle.ladr_problem.specs.declared.read.FileRead.{FileRead};
ghost use Rattle.printed_proofs.specs.Files.{HasFewSymbols, IsClauseOfFile};
ghost use Rattle.proof_lines.specs.Stated.{is_too_deep};
ghost use Rattle.prover_steps.specs.Searching.{clause_depth};
ghost use Rattle.search_lines.specs.Rows.{AreFitRows, IsFitRow};
ghost use Rattle.held_clauses.specs.Order.{greater_by};
ghost use Rattle.ladr_formulas.specs.declared.styles.Mode.{Mode};
ghost use Rattle.ladr_options.specs.declared.options.Order.{Order};
ghost use Rattle.search_lines.specs.Fitness.{AreFit, AreHeavy, IsFitFile};
ghost use Rattle.prover_steps.specs.SearchLaws.{KeepsVariables};
ghost use Rattle.prover_steps.specs.Starting.{AreRowsOf};
ghost use Rattle.term_order.specs.Listed.{symbol_rows};
ghost use Rattle.term_order.specs.Precedences.{stands_above, weight_at};

use clausify::skolems_stand_behind;
use ladr_models::formulas_state_themselves;
use prover_steps::orders_keep_variables;
use term_order::symbols_are_ordered;

/// Each line that a search makes has a clause and words that are fit to be printed.
pub fn lines_are_fit()
    ensures start { StartIsFit }
    ensures next { NextIsFit }
    ensures reached { ReachedAreFit }
    ensures lines { MadeLinesAreFit }
{}

/// Each clause that the formulas of a file are made into is over the symbols that clauses of its problem may have, with their
/// arguments and of their kinds; it is numbered, and its atoms have few levels.
pub fn rows_of_files_are_fit()
    ensures { (s : Sofar) (f : FileRead) → Grown Prover s → IsOf s f → HasFewSymbols f
        → AreFitRows f (clauses_in_table f.problem.symbols (stated_of f.problem)) }
{
    formulas_state_themselves();
    skolems_stand_behind();
}

/// A clause whose atoms have at most 1,000 levels is not too deep for a line.
pub fn shallow_clauses_are_lines()
    ensures { (table : List Symbol) (names : Naming) (c : ClauseTree) → clause_depth c ≤ 1000
        → is_too_deep false (clause_raw table names c) ≡ false }
{}

/// A clause that is such a row can be a line of a printed proof of its file.
pub fn fit_rows_are_lines()
    ensures { (f : FileRead) (c : ClauseTree) → IsFitRow f c → IsClauseOfFile f c }
{}

/// The demodulators of what has grown are demodulators, and each of its weights for KBO is at least 1.
pub fn files_are_fit()
    ensures { (m : Mode) (s : Sofar) → Grown m s → IsFitFile s }
{}

/// The clauses of formulas are rows of them, where their demodulators are demodulators.
pub fn rows_are_of_formulas()
    ensures { (symbols : List ℕ) (ss : List Said) → AreFit ss → AreRowsOf ss (all_rows symbols ss) }
{}

/// Whatever names are listed, both orders keep variables, where each weight of a name is at least 1.
pub fn orders_of_files_keep_variables()
    ensures { (o : Order) (listed : List (List ℕ)) (weights : List (List ℕ × ℕ)) (table : List Symbol)
        → AreHeavy weights → KeepsVariables (greater_by o
        (stands_above (symbol_rows listed weights table))
        (weight_at (symbol_rows listed weights table))) }
{
    orders_keep_variables();
    symbols_are_ordered();
}
