// Which rules a search has.
ghost use Rattle.std.specs.Prelude.{◌≡◌, count_by};
ghost use Rattle.std.specs.List.{list_any, list_all};
ghost use Rattle.prover_steps.specs.Conclusions.{has_equation, has_relation, is_horn, takes_equations, needs_resolution, rules_in_force};
ghost use Rattle.conclusions.specs.View.{rules_set};

use derivation::is_equation;
use fol_core::{Clause, Literal};
use ladr_options::Options;

/// The rules in force.
#[derive(Clone, Copy)]
pub struct RulesInForce {
    pub binary: bool,
    pub hyper: bool,
    pub units: bool,
    pub factors: bool,
    pub equalities: bool,
}

/// Whether a clause has an equation.
#[tactic(auto, using(held_clauses::proofs::LiteralTests::some_here, held_clauses::proofs::LiteralTests::some_behind, held_clauses::proofs::LiteralTests::some_end))]
pub fn has_equation(clause: &Clause) -> bool
    ensures { result ≡ has_equation clause.now }
{
    for literal in &clause.literals {
        if is_equation(&literal.atom) {
            return true;
        }
    }
    false
}

// Whether it has a literal that is none.
#[tactic(auto, using(held_clauses::proofs::LiteralTests::some_here, held_clauses::proofs::LiteralTests::some_behind, held_clauses::proofs::LiteralTests::some_end))]
fn has_relation(clause: &Clause) -> bool
    ensures { result ≡ has_relation clause.now }
{
    for literal in &clause.literals {
        if !is_equation(&literal.atom) {
            return true;
        }
    }
    false
}

// How many literals are positive.
fn positive_count(literals: &[Literal]) -> usize
    ensures { result ≡ count_by (λ l. l.positive) literals.now }
{
    literals.iter().filter(|literal| literal.positive).count()
}

// Whether it has at most one positive literal.
#[tactic(auto, using(crate::proofs::Counts::few_positive))]
fn is_horn(clause: &Clause) -> bool
    ensures { result ≡ is_horn clause.now }
{
    positive_count(clause.as_slice()) <= 1
}

// Whether some clause has an equation, or another literal; whether all have at most one positive literal.
fn any_has_equation(clauses: &[Clause]) -> bool
    ensures { result ≡ list_any has_equation clauses.now }
{
    clauses.iter().any(|clause| has_equation(clause))
}

fn any_has_relation(clauses: &[Clause]) -> bool
    ensures { result ≡ list_any has_relation clauses.now }
{
    clauses.iter().any(|clause| has_relation(clause))
}

fn all_are_horn(clauses: &[Clause]) -> bool
    ensures { result ≡ list_all is_horn clauses.now }
{
    clauses.iter().all(|clause| is_horn(clause))
}

// Whether paramodulation is in force.
fn takes_equations(options: &Options, clauses: &[Clause]) -> bool
    ensures { result ≡ takes_equations options.now clauses.now }
{
    options.paramodulation || options.auto && any_has_equation(clauses)
}

// Whether resolution is chosen by `auto`.
fn needs_resolution(options: &Options, clauses: &[Clause]) -> bool
    ensures { result ≡ needs_resolution options.now clauses.now }
{
    options.auto && (any_has_relation(clauses) || !takes_equations(options, clauses))
}

/// The rules that are set, and those that `auto` chooses by the input clauses.
pub fn rules_in_force(options: &Options, clauses: &[Clause]) -> RulesInForce
    ensures { rules_set result ≡ rules_in_force options.now clauses.now }
{
    let chosen = needs_resolution(options, clauses);
    let horn = all_are_horn(clauses);
    let binary = chosen && !horn;
    let hyper = chosen && horn;
    RulesInForce {
        binary: options.binary_resolution || binary,
        hyper: options.hyper_resolution || hyper,
        units: options.ur_resolution,
        factors: options.factor || binary,
        equalities: takes_equations(options, clauses),
    }
}
