// The marks of clauses: numbers for the symbols in them, by their places.
ghost use Rattle.std.specs.Prelude.{ℕ, ◌≡◌, ◌++◌, IfOk, OnOk};
ghost use Rattle.std.specs.List.{Contains};
ghost use Rattle.std.specs.List.Sorted.{IsStrictlyIncreasing};
ghost use Rattle.clause_index.specs.Marks.{mixed, place_of, term_marks, marks_of};
ghost use Rattle.fol_core.specs.TermView.{tree_of};

use discrim_tree::put_in_order;
use fol_core::{Clause, Term};
use std::alloc::{AllocError, Global};

// What numbers are multiplied by, so that few that are made of others are the same.
const SPREAD: u64 = 11_400_714_819_323_198_485;

// A number made of two others.
#[tactic(auto, unfolding(crate::specs::Marks::mixed))]
fn mixed(first: u64, second: u64) -> u64
    ensures { result ≡ mixed first second }
{
    first.wrapping_mul(SPREAD).wrapping_add(second)
}

// The number of an atom's place, by its literal's sign.
fn place_of(positive: bool) -> u64
    ensures { result ≡ place_of positive }
{
    if positive { 1 } else { 2 }
}

// The marks of a term at a place come to others.
fn add_term(marks: &mut Vec<u64>, place: u64, t: &Term) -> Result<(), AllocError>
    ensures { OnOk result (marks.new.items ≡ marks.old.items ++ term_marks place (tree_of t.now)) }
{
    match t {
        Term::Var(_) => Ok(()),
        Term::Elem(_) => Ok(()),
        Term::App(symbol, terms) => {
            let mark = mixed(place, symbol.0);
            marks.push(mark)?;
            for (i, term) in terms.items.iter().enumerate() {
                add_term(marks, mixed(mark, i as u64 + 1), term)?;
            }
            Ok(())
        }
    }
}

/// The marks of a clause, rising, each once.
pub fn marks_of(alloc: Global, clause: &Clause) -> Result<Vec<u64>, AllocError>
    ensures rise { IfOk result (λ ms. IsStrictlyIncreasing ms.items) }
    ensures all { IfOk result (λ ms. (m : ℕ) → Contains (marks_of clause.now) m → Contains ms.items m) }
    ensures only { IfOk result (λ ms. (m : ℕ) → Contains ms.items m → Contains (marks_of clause.now) m) }
{
    let mut marks = Vec::new(alloc);
    for literal in clause.as_slice() {
        add_term(&mut marks, place_of(literal.positive), &literal.atom)?;
    }
    put_in_order(&mut marks);
    Ok(marks)
}
