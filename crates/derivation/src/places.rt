// The literals of a clause by their places.
ghost use Rattle.std.specs.Prelude.{◌≡◌, ◌||◌, ◌&&◌, slice_get, unwrap_or};
ghost use Rattle.std.specs.Option.{option_map};
ghost use Rattle.derivation.specs.Places.{has_literal, has_place, atom_at, are_alike, are_opposite};
ghost use Rattle.fol_core.specs.ClauseView.{literal_of};
ghost use Rattle.fol_core.specs.TermView.{tree_of};
ghost use Rattle.fol_core.specs.Tree.{var};

use fol_core::{Clause, Literal, Term};

/// The literal at a place.
#[tactic(auto, using(crate::proofs::PlaceSteps::got_there, crate::proofs::PlaceSteps::got_past))]
pub fn literal_at(clause: &Clause, place: u64) -> Option<&Literal>
    ensures { option_map (λ l. literal_of l.now) result ≡ slice_get clause.now place }
{
    let literals = clause.as_slice();
    if place >= literals.len() as u64 {
        return None;
    }
    Some(&literals[place as usize])
}

/// The atom at a place.
#[tactic(auto, using(crate::proofs::PlaceSteps::atom_got, crate::proofs::PlaceSteps::atom_none))]
pub fn atom_at(clause: &Clause, place: u64) -> Option<&Term>
    ensures { unwrap_or (option_map (λ t. tree_of t.now) result) (var 0)
        ≡ atom_at clause.now place }
{
    match literal_at(clause, place) {
        Some(literal) => Some(&literal.atom),
        None => None,
    }
}

/// Whether there is a literal of the sign at the place.
#[tactic(auto, using(crate::proofs::PlaceSteps::sign_got, crate::proofs::PlaceSteps::sign_none))]
pub fn has_literal(clause: &Clause, positive: bool, place: u64) -> bool
    ensures { result ≡ has_literal positive clause.now place }
{
    match literal_at(clause, place) {
        Some(literal) => literal.positive == positive,
        None => false,
    }
}

/// Whether there is one of either sign.
pub fn has_place(clause: &Clause, place: u64) -> bool
    ensures { result ≡ has_place clause.now place }
{
    has_literal(clause, true, place) || has_literal(clause, false, place)
}

/// Whether the places have literals of one sign.
pub fn are_alike(c: &Clause, a: u64, d: &Clause, b: u64) -> bool
    ensures { result ≡ are_alike c.now a d.now b }
{
    let positive = has_literal(c, true, a) && has_literal(d, true, b);
    let negative = has_literal(c, false, a) && has_literal(d, false, b);
    positive || negative
}

/// Whether they have literals of opposite signs.
pub fn are_opposite(c: &Clause, a: u64, d: &Clause, b: u64) -> bool
    ensures { result ≡ are_opposite c.now a d.now b }
{
    let first = has_literal(c, true, a) && has_literal(d, false, b);
    let second = has_literal(c, false, a) && has_literal(d, true, b);
    first || second
}
