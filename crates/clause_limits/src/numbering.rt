// Clauses with their variables numbered anew, in place where they have few.
ghost use Rattle.std.specs.Prelude.{◌≡◌, ◌==◌, [], IsTrue, IfOk, map, position};
ghost use Rattle.fol_core.specs.Free.{joined, noted, variables_of};
ghost use Rattle.fol_core.specs.Literals.{literal};
ghost use Rattle.fol_core.specs.Renumbered.{by_place, clause_variables, place_in, renumbered};
ghost use Rattle.fol_core.specs.Substitutions.{substitute};
ghost use Rattle.fol_core.specs.TermView.{tree_of};

use fol_core::{Clause, Term, renumber};
use std::alloc::{AllocError, Global};

// How many variables are few: they are looked through one by one.
const FEW: usize = 16;

// The first place of a variable among some.
fn first_place(x: u64, variables: &[u64]) -> Option<usize>
    ensures { result ≡ position (λ y. x == y) variables.now }
{
    variables.iter().position(|y| x == *y)
}

// One more variable, unless it is among them; no if there were too many.
#[tactic(auto, using(crate::proofs::Noting::noted_there, crate::proofs::Noting::noted_new))]
fn note(x: u64, found: &mut Vec<u64>) -> Result<bool, AllocError>
    ensures { IfOk result (λ few. IsTrue few → found.new.items ≡ noted found.old.items x) }
{
    if first_place(x, found).is_some() {
        return Ok(true);
    }
    if found.len() >= FEW {
        return Ok(false);
    }
    found.push(x)?;
    Ok(true)
}

// Those of a term come to them; no if there were too many.
#[tactic(auto, using(fol_core::proofs::Variables::variables_next, fol_core::proofs::Variables::variables_end))]
fn note_all(term: &Term, found: &mut Vec<u64>) -> Result<bool, AllocError>
    ensures { IfOk result (λ few. IsTrue few → found.new.items
        ≡ joined found.old.items (variables_of (tree_of term.now))) }
{
    match term {
        Term::Var(x) => note(*x, found),
        Term::Elem(_) => Ok(true),
        Term::App(_, terms) => {
            for term in &terms.items {
                let few = note_all(term, found)?;
                if !few {
                    return Ok(false);
                }
            }
            Ok(true)
        }
    }
}

// Those of a clause, by first occurrence; no if there were too many.
#[tactic(auto, using(crate::proofs::Noting::clause_once, crate::proofs::Noting::clause_next, crate::proofs::Noting::clause_end))]
fn note_clause(clause: &Clause, found: &mut Vec<u64>) -> Result<bool, AllocError>
    requires { found.old.items ≡ [] }
    ensures { IfOk result (λ few. IsTrue few → found.new.items ≡ clause_variables clause.now) }
{
    for literal in &clause.literals {
        if !note_all(&literal.atom, found)? {
            return Ok(false);
        }
    }
    Ok(true)
}

// The place of a variable among some.
#[tactic(auto, using(fol_core::proofs::Places::first_place_is_position))]
fn place(x: u64, variables: &[u64]) -> u64
    ensures { result ≡ place_in variables.now x }
{
    match first_place(x, variables) {
        Some(place) => place as u64,
        None => 0,
    }
}

// The places of the variables of a term in their stead.
fn place_term(term: &mut Term, variables: &[u64])
    ensures { tree_of term.new ≡ substitute (by_place variables.now) (tree_of term.old) }
{
    match term {
        Term::Var(x) => *x = place(*x, variables),
        Term::Elem(_) => {}
        Term::App(_, terms) => {
            for i in 0..terms.items.len() {
                place_term(&mut terms.items[i], variables);
            }
        }
    }
}

// And of those of a clause.
fn place_clause(clause: &mut Clause, variables: &[u64])
    ensures { clause.new ≡ map (λ l. literal l.positive
        (substitute (by_place variables.now) l.atom)) clause.old }
{
    for i in 0..clause.literals.len() {
        place_term(&mut clause.literals[i].atom, variables);
    }
}

/// The clause with its variables numbered by first occurrence.
pub fn numbered_anew(alloc: Global, clause: Clause) -> Result<Clause, AllocError>
    ensures { IfOk result (λ c. c ≡ renumbered clause) }
{
    let mut clause = clause;
    let mut found = Vec::with_capacity(alloc, FEW)?;
    if note_clause(&clause, &mut found)? {
        place_clause(&mut clause, &found);
        return Ok(clause);
    }
    renumber(alloc, &clause)
}
