// Literals of a clause changed in place.
ghost use Rattle.std.specs.Prelude.{◌≡◌, ◌<◌, ◌+◌, ◌++◌, true, drop, length, take};
ghost use Rattle.inference.specs.Followed.{with_part};
ghost use Rattle.derivation.specs.Equations.{equation, is_equation, left_of, right_of};
ghost use Rattle.derivation.specs.Places.{atom_at, with_atom};
ghost use Rattle.fol_core.specs.TermView.{tree_of};
ghost use Rattle.substitutions.specs.Paths.{replaced};

use fol_core::{Clause, Term};
use std::mem;

// The sides of an equation exchanged.
#[tactic(auto, using(crate::proofs::Placing::equation_sides))]
fn turn(atom: &mut Term)
    requires { is_equation (tree_of atom.old) ≡ true }
    ensures { tree_of atom.new ≡ equation (right_of (tree_of atom.old))
        (left_of (tree_of atom.old)) }
{
    if let Term::App(_, terms) = atom {
        terms.items.swap(0, 1);
    }
}

/// The sides of the equation at a place exchanged.
pub fn turn_at(clause: &mut Clause, place: usize)
    requires place { place < length clause.old }
    requires equation { is_equation (atom_at clause.old place) ≡ true }
    ensures { clause.new ≡ with_atom clause.old place
        (equation (right_of (atom_at clause.old place)) (left_of (atom_at clause.old place))) }
{
    turn(&mut clause.literals[place].atom);
}

// Another term at a path; the one that was there is handed out, and where the path isn't there, the new one.
fn put_at(term: &mut Term, path: &[u64], part: Term) -> Term
    ensures changed { tree_of term.new ≡ replaced (tree_of term.old) path.now (tree_of part) }
    ensures back { tree_of term.old ≡ replaced (tree_of term.new) path.now (tree_of result) }
{
    let Some((number, rest)) = path.split_first() else {
        return mem::replace(term, part);
    };
    match term {
        Term::Var(_) => part,
        Term::Elem(_) => part,
        Term::App(_, terms) => {
            if *number == 0 {
                return part;
            }
            if *number > terms.items.len() as u64 {
                return part;
            }
            put_at(&mut terms.items[(*number - 1) as usize], rest, part)
        }
    }
}

/// Another term at a path of the atom at a place; what has to be put there for the clause as it was is handed out.
pub fn exchange(clause: &mut Clause, place: usize, path: &[u64], part: Term) -> Term
    requires { place < length clause.old }
    ensures changed { clause.new ≡ with_part clause.old place path.now (tree_of part) }
    ensures back { clause.old ≡ with_part clause.new place path.now (tree_of result) }
{
    put_at(&mut clause.literals[place].atom, path, part)
}

/// The literal at a place is left out.
#[tactic(auto, using(crate::proofs::Placing::taken_out))]
pub fn take_out(clause: &mut Clause, place: usize)
    requires { place < length clause.old }
    ensures { clause.new ≡ take place clause.old ++ drop (place + 1) clause.old }
{
    let _literal = clause.literals.remove(place);
}
