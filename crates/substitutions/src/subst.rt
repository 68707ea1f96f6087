// Substitutions, and what they make of terms, literals and clauses.
ghost use Rattle.std.specs.Prelude.{◌≡◌, ◌++◌, ◌∷◌, [], IfOk, OnOk, OnErr};
ghost use Rattle.fol_core.specs.ClauseView.{literal_of};
ghost use Rattle.fol_core.specs.TermView.{tree_of};
ghost use Rattle.fol_core.specs.Substitutions.{substitute};
ghost use Rattle.substitutions.specs.Bindings.{by_bindings};
ghost use Rattle.substitutions.specs.Instances.{substitute_literal, substitute_clause};

use fol_core::{Clause, Literal, Term, Terms};
use std::alloc::{AllocError, Global};
use std::marker::Model;

/// Terms for variables; contracts see the list of bindings. A variable without one stands for itself, and of several the
/// first counts.
#[derive(Drop)]
pub struct Subst {
    pub terms: Vec<(u64, Term)>,
}

impl Model for Subst {
    ghost use Rattle.std.specs.Prelude.{List, map};
    ghost use Rattle.substitutions.specs.Bindings.{Binding, coded_bindings};

    ghost Value = { List Binding };

    ghost coded = { coded_bindings };

    ghost use Rattle.substitutions.specs.View.{binding_of};

    ghost view = { λ a. map binding_of a.terms.items };
}

impl Subst {
    /// Each variable for itself.
    pub fn new(alloc: Global) -> Subst
        ensures { result ≡ [] }
    {
        Subst {
            terms: Vec::new(alloc),
        }
    }

    /// One more binding, at the end.
    pub fn bind(&mut self, variable: u64, term: Term) -> Result<(), AllocError>
        ensures ok { OnOk result (self.new ≡ self.old ++ (variable, tree_of term) ∷ []) }
        ensures err { OnErr result (self.new ≡ self.old) }
    {
        self.terms.push((variable, term))?;
        Ok(())
    }

    // The term that stands for a variable.
    fn term_for(&self, alloc: Global, x: u64) -> Result<Term, AllocError>
        ensures { IfOk result (λ t. tree_of t ≡ by_bindings self.now x) }
    {
        for (y, term) in &self.terms {
            if x == *y {
                return term.copy(alloc);
            }
        }
        Ok(Term::Var(x))
    }
}

/// The term with terms put in for its variables.
pub fn apply(alloc: Global, term: &Term, subst: &Subst) -> Result<Term, AllocError>
    ensures { IfOk result (λ t. tree_of t ≡ substitute (by_bindings subst.now) (tree_of term.now)) }
{
    match term {
        Term::Var(x) => subst.term_for(alloc, *x),
        Term::Elem(k) => Ok(Term::Elem(*k)),
        Term::App(s, terms) => {
            let mut made = Terms::new(alloc);
            for term in &terms.items {
                made.push(apply(alloc, term, subst)?)?;
            }
            Ok(Term::App(*s, made))
        }
    }
}

/// The literal with terms put in for its variables.
pub fn apply_literal(alloc: Global, literal: &Literal, subst: &Subst) -> Result<Literal, AllocError>
    ensures { IfOk result (λ l. literal_of l
        ≡ substitute_literal (by_bindings subst.now) (literal_of literal.now)) }
{
    let atom = apply(alloc, &literal.atom, subst)?;
    Ok(Literal {
        positive: literal.positive,
        atom,
    })
}

/// The instance of a clause.
pub fn apply_clause(alloc: Global, clause: &Clause, subst: &Subst) -> Result<Clause, AllocError>
    ensures { IfOk result (λ c. c ≡ substitute_clause (by_bindings subst.now) clause.now) }
{
    let mut made = Clause::new(alloc);
    for literal in &clause.literals {
        made.push(apply_literal(alloc, literal, subst)?)?;
    }
    Ok(made)
}
