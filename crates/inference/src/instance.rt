// The instance of a clause that terms for its variables make, measured before it is built.
ghost use Rattle.std.specs.Prelude.{◌≡◌, true, IfOk, map};
ghost use Rattle.clause_limits.specs.Sizes.{is_too_large, measured};
ghost use Rattle.derivation.specs.Lines.{instance_of};
ghost use Rattle.fol_core.specs.Substitutions.{substitute};
ghost use Rattle.fol_core.specs.TermView.{tree_of};
ghost use Rattle.inference.specs.Instance.{IsMade, all_measured};
ghost use Rattle.inference.specs.Measured.{clause_measured};
ghost use Rattle.substitutions.specs.Bindings.{by_bindings};
ghost use Rattle.substitutions.specs.Instances.{substitute_clause};

use crate::measuring::is_beyond;
use clause_limits::{Measure, SmallClause};
use fol_core::{Clause, Term};
use std::alloc::{AllocError, Global};
use std::marker::Model;
use substitutions::{Subst, apply_clause};

/// An instance of a clause that is too large for a search, of a clause and terms that are lent; contracts see the clause.
#[derive(Drop)]
pub struct LargeInstance<'a> {
    values: &'a Subst,
    parent: &'a Clause,
    measure: Measure,
}

impl<'a> Model for LargeInstance<'a> {
    ghost use Rattle.std.specs.Prelude.{◌≡◌, true};
    ghost use Rattle.clause_limits.specs.Sizes.{is_too_large};
    ghost use Rattle.fol_core.specs.Literals.{ClauseTree};
    ghost use Rattle.fol_core.specs.LitCodes.{coded_clause};
    ghost use Rattle.inference.specs.Measured.{clause_measured};
    ghost use Rattle.substitutions.specs.Bindings.{by_bindings};
    ghost use Rattle.substitutions.specs.Instances.{substitute_clause};

    ghost Value = { ClauseTree };

    ghost coded = { coded_clause };

    ghost view = { λ a. substitute_clause (by_bindings a.values.now) a.parent.now };

    ghost invariant = { λ a.
        (is_too_large (substitute_clause (by_bindings a.values.now) a.parent.now) ≡ true)
        × (a.measure ≡ clause_measured
        (substitute_clause (by_bindings a.values.now) a.parent.now)) };
}

impl<'a> LargeInstance<'a> {
    /// How large it is, each number up to the greatest one.
    pub fn measure(&self) -> Measure
        ensures { result ≡ clause_measured self.now }
    {
        self.measure
    }

    /// The terms and the clause: for who builds the instance on shared terms.
    pub fn parts(&self) -> (&Subst, &Clause)
        ensures { self.now ≡ substitute_clause (by_bindings result.0.now) result.1.now }
    {
        (self.values, self.parent)
    }
}

/// An instance of a clause, built with its variables numbered exactly where it isn't too large for a search.
#[derive(Drop)]
pub enum Instantiated<'a> {
    Small(SmallClause),
    Large(LargeInstance<'a>),
}

// How large the terms are that stand for variables, each once.
fn measure_values(alloc: Global, values: &Subst) -> Result<Vec<Measure>, AllocError>
    ensures { IfOk result (λ ms. ms.items ≡ all_measured values.now) }
{
    let mut measures = Vec::with_capacity(alloc, values.terms.len())?;
    for (_, term) in &values.terms {
        measures.push(Measure::of(term))?;
    }
    Ok(measures)
}

// How large what stands for a variable is.
fn measure_value(values: &Subst, measures: &[Measure], x: u64) -> Measure
    requires { measures.now ≡ all_measured values.now }
    ensures { result ≡ measured (by_bindings values.now x) }
{
    for (i, binding) in values.terms.iter().enumerate() {
        if x == binding.0 {
            return measures[i];
        }
    }
    Measure::one()
}

// How large a term is with terms put in for its variables.
fn measure_with(values: &Subst, measures: &[Measure], term: &Term) -> Measure
    requires { measures.now ≡ all_measured values.now }
    ensures { result ≡ measured (substitute (by_bindings values.now) (tree_of term.now)) }
{
    match term {
        Term::Var(x) => measure_value(values, measures, *x),
        Term::Elem(_) => Measure::one(),
        Term::App(_, terms) => {
            let mut measure = Measure::none();
            for term in &terms.items {
                measure = measure.beside(measure_with(values, measures, term));
            }
            measure.under_symbol()
        }
    }
}

// How large a clause is with terms put in for its variables.
fn measure_clause(values: &Subst, measures: &[Measure], clause: &Clause) -> Measure
    requires { measures.now ≡ all_measured values.now }
    ensures { result ≡ clause_measured (substitute_clause (by_bindings values.now) clause.now) }
{
    let mut all = Measure::none();
    for literal in &clause.literals {
        all = all.beside(measure_with(values, measures, &literal.atom));
    }
    all
}

/// C / C with terms for its variables, all at once
pub fn instantiate<'a>(
    alloc: Global,
    values: &'a Subst,
    parent: &'a Clause,
) -> Result<Instantiated<'a>, AllocError>
    ensures { IfOk result (IsMade (instance_of values.now parent.now)) }
{
    let measures = measure_values(alloc, values)?;
    let measure = measure_clause(values, measures.as_slice(), parent);
    if is_beyond(measure) {
        return Ok(Instantiated::Large(LargeInstance {
            values,
            parent,
            measure,
        }));
    }
    let clause = apply_clause(alloc, parent, values)?;
    Ok(Instantiated::Small(SmallClause::numbered(alloc, clause)?))
}
