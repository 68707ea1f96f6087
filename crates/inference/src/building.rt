// What is left of parents under a unifier, built with its variables numbered as they come.
ghost use Rattle.std.specs.Prelude.{◌≡◌, IfOk, map};
ghost use Rattle.fol_core.specs.ClauseView.{literal_of};
ghost use Rattle.fol_core.specs.Renumbered.{renumbered};
ghost use Rattle.fol_core.specs.Substitutions.{substitute};
ghost use Rattle.fol_core.specs.TermView.{tree_of};
ghost use Rattle.inference.specs.Left.{changed, left_clause, left_literal, left_tree};
ghost use Rattle.substitutions.specs.Bindings.{by_bindings};
ghost use Rattle.term_unifiers.specs.Renamed.{own_among};
ghost use Rattle.term_unifiers.specs.Written.{IsWritten};

use crate::left::{Change, Left};
use fol_core::{Clause, Literal, Term, Terms};
use std::alloc::{AllocError, Global};
use term_unifiers::{Numbers, Solution};

// A term of one of so many parents with another one's at a path.
fn written_with(
    alloc: Global,
    unifier: &Solution,
    many: u64,
    term: &Term,
    parent: u64,
    path: &[u64],
    change: &Change,
    numbers: &mut Numbers,
) -> Result<Term, AllocError>
    ensures { IfOk result (λ made. IsWritten numbers.old numbers.new (changed
        (own_among many (by_bindings unifier.now) parent) (tree_of term.now) path.now
        (substitute (own_among many (by_bindings unifier.now) change.now.parent)
        (tree_of change.now.term.now))) (tree_of made)) }
{
    let Some((number, rest)) = path.split_first() else {
        return unifier.write(alloc, change.term, many, change.parent, numbers);
    };
    match term {
        Term::Var(_) => unifier.write(alloc, term, many, parent, numbers),
        Term::Elem(k) => Ok(Term::Elem(*k)),
        Term::App(head, terms) => {
            let mut made = Terms::with_capacity(alloc, terms.items.len())?;
            for (i, part) in terms.items.iter().enumerate() {
                let place = i as u64 + 1;
                let written = if place == *number {
                    written_with(alloc, unifier, many, part, parent, rest, change, numbers)?
                } else {
                    unifier.write(alloc, part, many, parent, numbers)?
                };
                made.push(written)?;
            }
            Ok(Term::App(*head, made))
        }
    }
}

// The atom of a literal that is left.
fn written_atom(
    alloc: Global,
    unifier: &Solution,
    many: u64,
    left: &Left,
    numbers: &mut Numbers,
) -> Result<Term, AllocError>
    ensures { IfOk result (λ made. IsWritten numbers.old numbers.new (left_literal
        (own_among many (by_bindings unifier.now)) (left_tree left.now)).atom (tree_of made)) }
{
    let atom = &left.literal.atom;
    match &left.change {
        None => unifier.write(alloc, atom, many, left.parent, numbers),
        Some(change) => written_with(
            alloc,
            unifier,
            many,
            atom,
            left.parent,
            change.path,
            change,
            numbers,
        ),
    }
}

/// The clause of all literals that are left, its variables numbered by first occurrence.
pub fn built(
    alloc: Global,
    unifier: &Solution,
    many: u64,
    left: &[Left],
) -> Result<Clause, AllocError>
    ensures { IfOk result (λ c. c ≡ renumbered (left_clause
        (own_among many (by_bindings unifier.now)) (map left_tree left.now))) }
{
    let mut numbers = Numbers::new(alloc);
    let mut made = Clause::with_capacity(alloc, left.len())?;
    for one in left {
        let atom = written_atom(alloc, unifier, many, one, &mut numbers)?;
        made.push(Literal {
            positive: one.literal.positive,
            atom,
        })?;
    }
    Ok(made)
}
