// The truth of the formulas of an input.
ghost use Rattle.std.specs.Prelude.{IfOk, MatchBool};
ghost use Rattle.fol_core.specs.FormulaView.{fol_of};
ghost use Rattle.fol_problem.specs.Stated.{IsTrueIn, all_said, stated_of};
ghost use Rattle.ladr_clausetester.specs.Verdicts.{AreTrueAsTold, meaning_in};
ghost use Rattle.model_tables.specs.Tables.{meaning_of};

use fol_core::{Formula, free_vars};
use fol_problem::{Input, Problem};
use ladr_interpretations::{Named, bind};
use model_tables::{Env, Tables, closure_truth, reserve_closure};
use std::alloc::{AllocError, Global};

// Whether the closure of a formula is true in the tables.
fn holds(
    alloc: Global,
    tables: &Tables,
    formula: &Formula,
    env: &mut Env,
) -> Result<bool, AllocError>
    ensures { IfOk result (λ b. MatchBool b (IsTrueIn (meaning_of tables.now)
        (fol_of formula.now.shape)) (¬ IsTrueIn (meaning_of tables.now)
        (fol_of formula.now.shape))) }
{
    let variables = free_vars(alloc, formula)?;
    reserve_closure(env, formula, &variables)?;
    Ok(closure_truth(tables, formula, &variables, env))
}

// Whether the closure of each formula is true in the tables.
fn hold(alloc: Global, tables: &Tables, inputs: &[Input]) -> Result<Vec<bool>, AllocError>
    ensures { IfOk result (λ all. AreTrueAsTold (meaning_of tables.now)
        (all_said inputs.now) all.items) }
{
    let mut env = Env::new(alloc);
    let mut all = Vec::new(alloc);
    for input in inputs {
        let true_now = holds(alloc, tables, &input.formula, &mut env)?;
        all.push(true_now)?;
    }
    Ok(all)
}

/// Whether each formula of a problem is true in an interpretation.
pub fn verdicts(alloc: Global, problem: &Problem, named: &Named) -> Result<Vec<bool>, AllocError>
    ensures { IfOk result (λ all. AreTrueAsTold (meaning_in (stated_of problem.now) named.now)
        (stated_of problem.now).formulas all.items) }
{
    let tables = bind(alloc, named, &problem.symbols)?;
    hold(alloc, &tables, &problem.inputs)
}
