// Literals at places that are there, and whether the clashes of a nucleus with its satellites fit. The other rules tell by their
// places alone.
ghost use Rattle.std.specs.Prelude.{◌≡◌, ◌==◌, ◌||◌, if◌then◌else◌, Some, IsTrue, length, map, not};
ghost use Rattle.derivation.specs.Equations.{is_no_variable};
ghost use Rattle.derivation.specs.Places.{atom_at, has_place};
ghost use Rattle.derivation.specs.Words.{clash_rule, clashes_fit};
ghost use Rattle.fol_core.specs.Free.{is_in};
ghost use Rattle.fol_core.specs.TermView.{tree_of};
ghost use Rattle.inference.specs.Judged.{clash_of};
ghost use Rattle.inference.specs.Lent.{lent_clauses};

use derivation::{Satellite, are_opposite, literal_at};
use fol_core::{Clause, Term};

/// The atom at a place that is there.
pub fn atom(clause: &Clause, place: u64) -> &Term
    requires { IsTrue (has_place clause.now place) }
    ensures { tree_of result.now ≡ atom_at clause.now place }
{
    &literal_at(clause, place).unwrap().atom
}

/// Whether a term is a variable.
pub fn is_variable(term: &Term) -> bool
    ensures { is_no_variable (Some (tree_of term.now)) ≡ not result }
{
    match term {
        Term::Var(_) => true,
        Term::Elem(_) => false,
        Term::App(_, _) => false,
    }
}

/// The first of two terms where the side of an equation is 1, and else the second.
pub fn chosen<'a>(side: u64, first: &'a Term, second: &'a Term) -> &'a Term
    ensures { tree_of result.now ≡ (if side == 1 then tree_of first.now
        else tree_of second.now) }
{
    if side == 1 {
        return first;
    }
    second
}

/// Whether it is the number of a side.
pub fn is_side(side: u64) -> bool
    ensures { result ≡ (side == 1 || side == 2) }
{
    side == 1 || side == 2
}

/// Whether a place of the nucleus is that of one of the satellites.
#[tactic(auto, using(crate::proofs::FitSteps::taken_here, crate::proofs::FitSteps::taken_behind, crate::proofs::FitSteps::taken_end))]
pub fn is_taken(place: u64, satellites: &[Satellite]) -> bool
    ensures { result ≡ is_in place (map (λ k. k.0) (map clash_of satellites.now)) }
{
    for s in satellites {
        if place == s.place {
            return true;
        }
    }
    false
}

// Whether each satellite has a literal of the other sign, and the places of the nucleus are all different.
#[tactic(auto, using(crate::proofs::FitSteps::lent_refused, crate::proofs::FitSteps::lent_taken, crate::proofs::FitSteps::lent_on, crate::proofs::FitSteps::lent_done))]
fn satellites_fit(nucleus: &Clause, satellites: &[Satellite], others: &[&Clause]) -> bool
    requires { length others.now ≡ length satellites.now }
    ensures { result ≡ clashes_fit nucleus.now (map clash_of satellites.now)
        (lent_clauses others.now) }
{
    for (i, s) in satellites.iter().enumerate() {
        if !are_opposite(nucleus, s.place, others[i], s.literal) {
            return false;
        }
        if is_taken(s.place, &satellites[i + 1..]) {
            return false;
        }
    }
    true
}

/// Whether a nucleus and its satellites fit, of which there is one at least.
#[tactic(auto, using(crate::proofs::FitSteps::fits_none, crate::proofs::FitSteps::fits_alone, crate::proofs::FitSteps::fits_uneven, crate::proofs::FitSteps::fits_whole))]
pub fn clash_fits(satellites: &[Satellite], parents: &[&Clause]) -> bool
    ensures { result ≡ (clash_rule (map clash_of satellites.now)).fits (lent_clauses parents.now) }
{
    let Some((nucleus, others)) = parents.split_first() else {
        return false;
    };
    if others.is_empty() {
        return false;
    }
    if others.len() != satellites.len() {
        return false;
    }
    satellites_fit(nucleus, satellites, others)
}
