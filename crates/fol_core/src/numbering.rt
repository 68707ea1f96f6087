// Clauses with their variables numbered anew.
ghost use Rattle.std.specs.Prelude.{◌≡◌, IfOk, map};
ghost use Rattle.fol_core.specs.ClauseView.{literal_of};
ghost use Rattle.fol_core.specs.Literals.{literal};
ghost use Rattle.fol_core.specs.Substitutions.{substitute};
ghost use Rattle.fol_core.specs.Renumbered.{clause_variables, place_in, by_place, renumbered};
ghost use Rattle.fol_core.specs.TermView.{tree_of};

use crate::clause::{Clause, Literal};
use crate::free::add_variables;
use crate::term::{Term, Terms};
use indexmap::IndexSet;
use std::alloc::{AllocError, Global};

/// The clause with its variables numbered by first occurrence.
pub fn renumber(alloc: Global, clause: &Clause) -> Result<Clause, AllocError>
    ensures { IfOk result (λ c. c ≡ renumbered clause.now) }
{
    let variables = variables_of(alloc, clause)?;
    placed_clause(alloc, clause, &variables)
}

// The clause with the places of its variables in their stead.
fn placed_clause(
    alloc: Global,
    clause: &Clause,
    variables: &IndexSet<u64>,
) -> Result<Clause, AllocError>
    ensures { IfOk result (λ c. c ≡ map (λ l. literal l.positive
        (substitute (by_place variables.now.keys) l.atom)) clause.now) }
{
    let mut made = Clause::with_capacity(alloc, clause.literals.len())?;
    for literal in &clause.literals {
        let atom = placed(alloc, &literal.atom, variables)?;
        made.push(Literal {
            positive: literal.positive,
            atom,
        })?;
    }
    Ok(made)
}

// The variables of a clause, by first occurrence.
#[tactic(auto, using(crate::proofs::Numberings::clause_once, crate::proofs::Numberings::clause_next, crate::proofs::Numberings::clause_end))]
fn variables_of(alloc: Global, clause: &Clause) -> Result<IndexSet<u64>, AllocError>
    ensures { IfOk result (λ variables. variables.keys ≡ clause_variables clause.now) }
{
    let mut found = IndexSet::new(alloc);
    for literal in &clause.literals {
        add_variables(&literal.atom, &[], &mut found)?;
    }
    Ok(found)
}

// The place of a variable.
#[tactic(auto, using(crate::proofs::Places::first_place_is_position))]
fn place(x: u64, variables: &IndexSet<u64>) -> u64
    ensures { result ≡ place_in variables.now.keys x }
{
    match variables.get_index_of(&x) {
        Some(place) => place as u64,
        None => 0,
    }
}

// The term with the places of its variables in their stead.
fn placed(alloc: Global, term: &Term, variables: &IndexSet<u64>) -> Result<Term, AllocError>
    ensures { IfOk result (λ t. tree_of t ≡ substitute (by_place variables.now.keys)
        (tree_of term.now)) }
{
    match term {
        Term::Var(x) => Ok(Term::Var(place(*x, variables))),
        Term::Elem(k) => Ok(Term::Elem(*k)),
        Term::App(s, terms) => {
            let mut made = Terms::with_capacity(alloc, terms.items.len())?;
            for term in &terms.items {
                made.push(placed(alloc, term, variables)?)?;
            }
            Ok(Term::App(*s, made))
        }
    }
}
