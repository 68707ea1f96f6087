// What guides a search.
ghost use Rattle.std.specs.Prelude.{◌≡◌, IfOk, map};
ghost use Rattle.given_clause.specs.Guides.{setting_of};
ghost use Rattle.prover_setup.specs.SearchInputs.{input_in, symbols_in, rows_in, setting_in};

use conclusions::rules_in_force;
use fol_core::{Clause, Symbols};
use fol_problem::Problem;
use given_clause::Guide;
use std::alloc::{AllocError, Global};
use term_order::Precedence;
use weights::Rules;

// The clauses without the numbers of their formulas.
fn clauses_alone(alloc: Global, rows: &[(u64, Clause)]) -> Result<Vec<Clause>, AllocError>
    ensures { IfOk result (λ cs. cs.items ≡ map (λ r. r.1) rows.now) }
{
    let mut clauses = Vec::new(alloc);
    for row in rows {
        clauses.push(row.1.copy(alloc)?)?;
    }
    Ok(clauses)
}

/// The guide of a search for proofs of a problem, by its clauses and by its symbols with the Skolem symbols.
pub fn guide_of<'a>(
    alloc: Global,
    problem: &'a Problem,
    symbols: &Symbols,
    clauses: &[(u64, Clause)],
) -> Result<Guide<'a>, AllocError>
    requires symbols { symbols.now ≡ symbols_in (input_in problem.now) }
    requires clauses { clauses.now ≡ rows_in (input_in problem.now) }
    ensures { IfOk result (λ g. setting_of g ≡ setting_in (input_in problem.now)) }
{
    let options = problem.options;
    let alone = clauses_alone(alloc, clauses)?;
    let rules = rules_in_force(&options, alone.as_slice());
    let listed = &problem.function_order;
    let precedence = Precedence::new(alloc, options.order, symbols, listed, &problem.kbo_weights)?;
    let weights = Rules::new(alloc, problem)?;
    Ok(Guide {
        rules,
        precedence,
        weights,
        weighs_first: problem.hints.is_empty() && problem.weights.is_empty(),
        options,
    })
}
