// The truth of closures, without quantifiers for the free variables.
ghost use Rattle.std.specs.Prelude.{◌≡◌, ◌+◌, ◌<◌, ◌≤◌, map, length, MatchBool};
ghost use Rattle.fol_core.specs.FormulaView.{fol_of};
ghost use Rattle.fol_core.specs.Bound.{IsOnce};
ghost use Rattle.fol_core.specs.Free.{closure_of, free_vars_of};
ghost use Rattle.fol_core.specs.Truth.{Assignment, Holds};
ghost use Rattle.model_tables.specs.Digits.{AreDigits, digits_count, digits_number};
ghost use Rattle.model_tables.specs.Tables.{meaning_of};
ghost use Rattle.model_tables.specs.Variables.{assignment, room_of, HasRoom};

use crate::env::Env;
use crate::evaluate::truth;
use crate::tables::Tables;
use fol_core::Formula;

/// Whether the closure of a formula is true, whose free variables these are. They are stepped through all their elements,
/// and have some of them afterwards.
pub fn closure_truth(tables: &Tables, formula: &Formula, variables: &[u64], env: &mut Env) -> bool
    requires variables { variables.now ≡ free_vars_of (fol_of formula.now.shape) }
    requires room { room_of (closure_of (fol_of formula.now.shape)) ≤ length env.old }
    ensures room { length env.new ≡ length env.old }
    ensures truth { (e : Assignment) → MatchBool result
        (Holds (meaning_of tables.now) e (closure_of (fol_of formula.now.shape)))
        (¬ Holds (meaning_of tables.now) e (closure_of (fol_of formula.now.shape))) }
{
    clear(variables, env);
    while truth(tables, formula, env) {
        if !advance(tables, variables, env) {
            return true;
        }
    }
    false
}

// Element 0 for each of the variables.
fn clear(variables: &[u64], env: &mut Env)
    requires { HasRoom variables.now env.old }
    ensures room { length env.new ≡ length env.old }
    ensures zero { map (assignment env.new) variables.now ≡ map (λ x. 0) variables.now }
{
    for variable in variables {
        env.set(*variable, 0);
    }
}

// The next elements for the variables, the last variable running fastest; false after the last ones.
fn advance(tables: &Tables, variables: &[u64], env: &mut Env) -> bool
    requires room { HasRoom variables.now env.old }
    requires apart { IsOnce variables.now }
    requires digits { AreDigits (map (λ x. tables.now.top + 1) variables.now)
        (map (assignment env.old) variables.now) }
    ensures room { length env.new ≡ length env.old }
    ensures digits { AreDigits (map (λ x. tables.now.top + 1) variables.now)
        (map (assignment env.new) variables.now) }
    ensures next { MatchBool result
        (digits_number (map (λ x. tables.now.top + 1) variables.now)
        (map (assignment env.new) variables.now)
        ≡ digits_number (map (λ x. tables.now.top + 1) variables.now)
        (map (assignment env.old) variables.now) + 1)
        (digits_count (map (λ x. tables.now.top + 1) variables.now)
        ≡ digits_number (map (λ x. tables.now.top + 1) variables.now)
        (map (assignment env.old) variables.now) + 1) }
{
    let size = tables.size();
    let mut at = variables.len();
    while at > 0 {
        at -= 1;
        let variable = variables[at];
        let next = env.element(variable) + 1;
        if next < size {
            env.set(variable, next);
            return true;
        }
        env.set(variable, 0);
    }
    false
}
