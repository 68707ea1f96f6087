// The clauses of a problem.
ghost use Rattle.std.specs.Prelude.{◌≡◌, ◌≤◌, ℕ, Some, None, Err, IfOk, OnOk, length, map};
ghost use Rattle.fol_core.specs.EntryView.{skolem_axiom_of};
ghost use Rattle.fol_core.specs.Literals.{equality};
ghost use Rattle.fol_core.specs.Meaning.{Meaning, IsLawful};
ghost use Rattle.fol_core.specs.Tree.{trees_of};
ghost use Rattle.fol_problem.specs.Asks.{asks_of};
ghost use Rattle.fol_problem.specs.Stated.{stated_of, IsWellFormed, IsCountermodel, AreNewTo};
ghost use Rattle.fol_core.specs.SymbolTable.{KeepsNumbers};
ghost use Rattle.fol_core.specs.SkolemAxioms.{PicksWitnesses, AreInOrder};
ghost use Rattle.clausify.specs.Asked.{answer_terms_in_table};
ghost use Rattle.clausify.specs.Input.{clauses_in_table, axioms_in_table, with_skolems, first_over, used_symbols, numeral_of};
ghost use Rattle.clausify.specs.Laws.{AreTrueRows};
ghost use Rattle.clausify.specs.Names.{HasNoSkolemRelation};

use crate::arity::all_arities;
use crate::error::ClauseError;
use crate::inputs::{Rows, all_clauses};
use crate::laws::{clauses_follow, clauses_suffice};
use crate::limit::first_over;
use crate::normal::all_normal;
use crate::seen::symbols_and_numeral;
use crate::skolem::enter_all;
use fol_core::{Clauses, Symbols};
use fol_problem::Problem;
use std::alloc::{AllocError, Global};

// A table has fewer symbols than there are numbers, so equality's is none of theirs.
fn fits(symbols: &Symbols)
    ensures { length symbols.now ≤ equality }
{
    let _size = symbols.len();
}

// The clauses of a problem whose formulas are within the limit.
#[tactic(auto, using(crate::proofs::Asks::terms_of_inputs))]
fn made(alloc: Global, problem: &Problem, symbols: &mut Symbols) -> Result<Clauses, AllocError>
    requires well_formed { IsWellFormed (stated_of problem.now) }
    requires small { length problem.now.symbols ≤ equality }
    requires table { KeepsNumbers problem.now.symbols symbols.old }
    requires no_relation { HasNoSkolemRelation problem.now.symbols symbols.old }
    ensures clauses { IfOk result (λ c. c.clauses.items
        ≡ clauses_in_table symbols.old (stated_of problem.now)) }
    ensures answers { IfOk result (λ c. map trees_of c.answers.items
        ≡ answer_terms_in_table symbols.old (stated_of problem.now) (asks_of problem.now)) }
    ensures skolem { IfOk result (λ c. map skolem_axiom_of c.skolem.items
        ≡ axioms_in_table symbols.old (stated_of problem.now)) }
    ensures symbols { IfOk result (λ c. map (λ s. s.0) c.symbols.items
        ≡ used_symbols problem.now.symbols (stated_of problem.now).formulas) }
    ensures numeral { IfOk result (λ c. c.numeral ≡ numeral_of (stated_of problem.now).formulas) }
    ensures order { IfOk result (λ c. AreInOrder (map skolem_axiom_of c.skolem.items)) }
    ensures new { IfOk result (λ c. AreNewTo (stated_of problem.now).formulas
        (map skolem_axiom_of c.skolem.items)) }
    ensures table { OnOk result (symbols.new ≡ with_skolems symbols.old (stated_of problem.now)) }
    ensures kept { KeepsNumbers symbols.old symbols.new }
{
    let normals = all_normal(alloc, &problem.inputs)?;
    let arities = all_arities(alloc, &normals)?;
    let numbers = enter_all(alloc, &problem.symbols, &arities, symbols)?;
    let rows = all_clauses(alloc, &numbers, &normals)?;
    let Rows {
        clauses,
        answers,
        skolem,
    } = rows;
    let (symbols, numeral) = symbols_and_numeral(alloc, problem)?;
    Ok(Clauses {
        clauses,
        answers,
        skolem,
        symbols,
        numeral,
    })
}

/// The clauses of a problem. Its Skolem symbols are entered into a table that has the problem's symbols under their numbers.
pub fn clauses_of(
    alloc: Global,
    problem: &Problem,
    symbols: &mut Symbols,
) -> Result<Clauses, ClauseError>
    requires well_formed { IsWellFormed (stated_of problem.now) }
    requires table { KeepsNumbers problem.now.symbols symbols.old }
    requires no_relation { HasNoSkolemRelation problem.now.symbols symbols.old }

    ensures clauses { IfOk result (λ c. c.clauses.items
        ≡ clauses_in_table symbols.old (stated_of problem.now)) }
    ensures answers { IfOk result (λ c. map trees_of c.answers.items
        ≡ answer_terms_in_table symbols.old (stated_of problem.now) (asks_of problem.now)) }
    ensures skolem { IfOk result (λ c. map skolem_axiom_of c.skolem.items
        ≡ axioms_in_table symbols.old (stated_of problem.now)) }
    ensures symbols { IfOk result (λ c. map (λ s. s.0) c.symbols.items
        ≡ used_symbols problem.now.symbols (stated_of problem.now).formulas) }
    ensures numeral { IfOk result (λ c. c.numeral ≡ numeral_of (stated_of problem.now).formulas) }
    // Each Skolem symbol's body has those before it alone, and no formula has one.
    ensures order { IfOk result (λ c. AreInOrder (map skolem_axiom_of c.skolem.items)) }
    ensures new { IfOk result (λ c. AreNewTo (stated_of problem.now).formulas
        (map skolem_axiom_of c.skolem.items)) }
    ensures entered { OnOk result (symbols.new ≡ with_skolems symbols.old (stated_of problem.now)) }
    ensures kept { KeepsNumbers symbols.old symbols.new }

    // A formula over the limit is named, and comes to nothing else but want of memory.
    ensures limit { (n : ℕ) → result ≡ Err (ClauseError.ClauseLimit n)
        → first_over 1 (stated_of problem.now).formulas ≡ Some n }
    ensures unentered { (n : ℕ) → result ≡ Err (ClauseError.ClauseLimit n)
        → symbols.new ≡ symbols.old }
    ensures within { OnOk result (first_over 1 (stated_of problem.now).formulas ≡ None) }

    // Clauses and formulas say the same, in every interpretation.
    ensures suffice { IfOk result (λ c. (m : Meaning) → IsLawful m → AreTrueRows m c.clauses.items
        → IsCountermodel m (stated_of problem.now).formulas) }
    ensures follow { IfOk result (λ c. (m : Meaning) → IsLawful m
        → PicksWitnesses m (map skolem_axiom_of c.skolem.items)
        → IsCountermodel m (stated_of problem.now).formulas → AreTrueRows m c.clauses.items) }
{
    if let Some(formula) = first_over(&problem.inputs) {
        return Err(ClauseError::ClauseLimit { formula });
    }
    fits(&problem.symbols);
    let clauses = made(alloc, problem, symbols)?;
    clauses_suffice();
    clauses_follow();
    Ok(clauses)
}
