// All conclusions of a given clause.
ghost use Rattle.std.specs.Prelude.{◌≡◌, ◌++◌, IfOk, OnOk};
ghost use Rattle.conclusions.specs.View.{rules_set};
ghost use Rattle.held_clauses.specs.Order.{greater_of};
ghost use Rattle.prover_steps.specs.Clashing.{resolvents_of, hyperresolvents_of, unit_resolvents_of, factors_of};
ghost use Rattle.prover_steps.specs.Conclusions.{where_set, conclusions_of};
ghost use Rattle.prover_steps.specs.Equalities.{paramodulants_of, reflexive_resolvents_of};
ghost use Rattle.resolution.specs.View.{all_conclusions};

use crate::rules::RulesInForce;
use clause_index::HeldSet;
use held_clauses::Held;
use paramod::{add_paramodulants, add_reflexive_resolvents};
use resolution::{
    Conclusion, add_factors, add_hyperresolvents, add_resolvents, add_unit_resolvents,
};
use std::alloc::{AllocError, Global};
use term_order::Precedence;

// By resolution.
#[tactic(auto, using(crate::proofs::Sets::four_added))]
fn add_by_resolution(
    alloc: Global,
    rules: &RulesInForce,
    held: &HeldSet,
    given: &Held,
    made: &mut Vec<Conclusion>,
) -> Result<(), AllocError>
    ensures { OnOk result (all_conclusions made.new.items ≡ all_conclusions made.old.items
        ++ (where_set rules.now.binary (resolvents_of held.now given.now)
        ++ (where_set rules.now.hyper (hyperresolvents_of held.now given.now)
        ++ (where_set rules.now.units (unit_resolvents_of held.now given.now)
        ++ where_set rules.now.factors (factors_of given.now))))) }
{
    add_binary(alloc, rules.binary, held, given, made)?;
    add_hyper(alloc, rules.hyper, held, given, made)?;
    add_units(alloc, rules.units, held, given, made)?;
    add_factored(alloc, rules.factors, given, made)?;
    Ok(())
}

// Each rule, if it is in force.
#[tactic(auto, using(crate::proofs::Sets::not_set, crate::proofs::Sets::is_set))]
fn add_binary(
    alloc: Global,
    set: bool,
    held: &HeldSet,
    given: &Held,
    made: &mut Vec<Conclusion>,
) -> Result<(), AllocError>
    ensures { OnOk result (all_conclusions made.new.items ≡ all_conclusions made.old.items
        ++ where_set set (resolvents_of held.now given.now)) }
{
    if !set {
        return Ok(());
    }
    add_resolvents(alloc, held, given, made)?;
    Ok(())
}

#[tactic(auto, using(crate::proofs::Sets::not_set, crate::proofs::Sets::is_set))]
fn add_hyper(
    alloc: Global,
    set: bool,
    held: &HeldSet,
    given: &Held,
    made: &mut Vec<Conclusion>,
) -> Result<(), AllocError>
    ensures { OnOk result (all_conclusions made.new.items ≡ all_conclusions made.old.items
        ++ where_set set (hyperresolvents_of held.now given.now)) }
{
    if !set {
        return Ok(());
    }
    add_hyperresolvents(alloc, held, given, made)?;
    Ok(())
}

#[tactic(auto, using(crate::proofs::Sets::not_set, crate::proofs::Sets::is_set))]
fn add_units(
    alloc: Global,
    set: bool,
    held: &HeldSet,
    given: &Held,
    made: &mut Vec<Conclusion>,
) -> Result<(), AllocError>
    ensures { OnOk result (all_conclusions made.new.items ≡ all_conclusions made.old.items
        ++ where_set set (unit_resolvents_of held.now given.now)) }
{
    if !set {
        return Ok(());
    }
    add_unit_resolvents(alloc, held, given, made)?;
    Ok(())
}

#[tactic(auto, using(crate::proofs::Sets::not_set, crate::proofs::Sets::is_set))]
fn add_factored(
    alloc: Global,
    set: bool,
    given: &Held,
    made: &mut Vec<Conclusion>,
) -> Result<(), AllocError>
    ensures { OnOk result (all_conclusions made.new.items ≡ all_conclusions made.old.items
        ++ where_set set (factors_of given.now)) }
{
    if !set {
        return Ok(());
    }
    add_factors(alloc, given, made)?;
    Ok(())
}

#[tactic(auto, using(crate::proofs::Sets::two_not_set, crate::proofs::Sets::two_set))]
fn add_by_equations(
    alloc: Global,
    set: bool,
    precedence: &Precedence,
    held: &HeldSet,
    given: &Held,
    made: &mut Vec<Conclusion>,
) -> Result<(), AllocError>
    ensures { OnOk result (all_conclusions made.new.items ≡ all_conclusions made.old.items
        ++ (where_set set (paramodulants_of (greater_of precedence.now) held.now given.now)
        ++ where_set set (reflexive_resolvents_of given.now))) }
{
    if !set {
        return Ok(());
    }
    add_paramodulants(alloc, precedence, held, given, made)?;
    add_reflexive_resolvents(alloc, given, made)?;
    Ok(())
}

/// All conclusions of a given clause with the clauses that are held, by the rules in force, in their order.
#[tactic(auto, using(crate::proofs::Sets::six_made))]
pub fn conclusions_of(
    alloc: Global,
    rules: &RulesInForce,
    precedence: &Precedence,
    held: &HeldSet,
    given: &Held,
) -> Result<Vec<Conclusion>, AllocError>
    ensures { IfOk result (λ made. all_conclusions made.items ≡ conclusions_of (rules_set rules.now)
        (greater_of precedence.now) held.now given.now) }
{
    let mut made = Vec::new(alloc);
    add_by_resolution(alloc, rules, held, given, &mut made)?;
    add_by_equations(alloc, rules.equalities, precedence, held, given, &mut made)?;
    Ok(made)
}
