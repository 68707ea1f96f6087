// Clauses that change others: rules that fit their terms, and units that deny their literals.
ghost use Rattle.std.specs.Prelude.{◌≡◌, IfOk};
ghost use Rattle.fol_core.specs.ClauseView.{literal_of};
ghost use Rattle.fol_core.specs.TermView.{tree_of};
ghost use Rattle.fol_core.specs.Tree.{trees_of};
ghost use Rattle.prover_steps.specs.Shortening.{denies};
ghost use Rattle.prover_steps.specs.Subsuming.{fits_in, fits_in_some, fits_below, rewrites_clause};

use fol_core::{Clause, Literal, Term, Terms};
use held_clauses::{Held, rule_left};
use std::alloc::{AllocError, Global};
use term_matches::is_instance;

// Whether a rule fits one of some arguments or a term in them.
#[cycle(fits)]
#[tactic(auto, using(crate::proofs::Fits::fits_here, crate::proofs::Fits::fits_behind, crate::proofs::Fits::fits_end))]
fn fits_in_some(alloc: Global, rule: &Held, terms: &Terms) -> Result<bool, AllocError>
    ensures { IfOk result (λ b. b ≡ fits_in_some rule.now (trees_of terms.now)) }
{
    for term in &terms.items {
        if fits_in(alloc, rule, term)? {
            return Ok(true);
        }
    }
    Ok(false)
}

// Whether it fits a term or one in it.
#[cycle(fits)]
#[tactic(auto, using(crate::proofs::Fits::rewrites_instance, derivation::proofs::SideSteps::or_tree, derivation::proofs::SideSteps::or_variable))]
fn fits_in(alloc: Global, rule: &Held, term: &Term) -> Result<bool, AllocError>
    ensures { IfOk result (λ b. b ≡ fits_in rule.now (tree_of term.now)) }
{
    match term {
        Term::Var(_) => Ok(false),
        Term::Elem(_) => Ok(false),
        Term::App(_, terms) => {
            let variable = Term::Var(0);
            if is_instance(alloc, rule_left(rule).unwrap_or(&variable), term)? {
                return Ok(true);
            }
            fits_in_some(alloc, rule, terms)
        }
    }
}

// Whether it fits a term below an atom.
fn fits_below(alloc: Global, rule: &Held, atom: &Term) -> Result<bool, AllocError>
    ensures { IfOk result (λ b. b ≡ fits_below rule.now (tree_of atom.now)) }
{
    match atom {
        Term::Var(_) => Ok(false),
        Term::Elem(_) => Ok(false),
        Term::App(_, terms) => fits_in_some(alloc, rule, terms),
    }
}

/// Whether the rule fits a term of the clause.
#[tactic(auto, using(held_clauses::proofs::LiteralTests::some_here, held_clauses::proofs::LiteralTests::some_behind, held_clauses::proofs::LiteralTests::some_end))]
pub fn rewrites_clause(alloc: Global, rule: &Held, clause: &Clause) -> Result<bool, AllocError>
    ensures { IfOk result (λ b. b ≡ rewrites_clause rule.now clause.now) }
{
    for literal in &clause.literals {
        if fits_below(alloc, rule, &literal.atom)? {
            return Ok(true);
        }
    }
    Ok(false)
}

/// Whether the clause is a unit of the other sign that has the literal's atom as an instance.
pub fn denies(alloc: Global, unit: &Held, literal: &Literal) -> Result<bool, AllocError>
    ensures { IfOk result (λ b. b ≡ denies unit.now (literal_of literal.now)) }
{
    let literals = unit.clause().as_slice();
    if literals.len() != 1 {
        return Ok(false);
    }
    if literals[0].positive == literal.positive {
        return Ok(false);
    }
    is_instance(alloc, &literals[0].atom, &literal.atom)
}
