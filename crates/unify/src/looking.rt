// What stands at a spot.
ghost use Rattle.std.specs.Prelude.{◌≡◌, ℕ, ◌↔◌, IsTrue, MatchOption};
ghost use Rattle.fol_core.specs.Tree.{var};
ghost use Rattle.unifiers.specs.Matching.{same_tree};
ghost use Rattle.unify.specs.Bindings.{IsSpot};
ghost use Rattle.unify.specs.Spots.{spot_tree, In};
ghost use Rattle.unify.specs.Steps.{same_spot, IsNoVariable, IsShownIn, AllSpots};

use crate::spot::Spot;
use term_bank::{Bank, Node};

/// The variable that stands there, if one does.
pub fn variable_of(bank: &Bank, spot: Spot) -> Option<u64>
    requires { IsSpot bank.now spot }
    ensures { MatchOption result (IsNoVariable bank.now spot)
        (λ x. spot_tree bank.now spot ≡ var x) }
{
    match bank.node(spot.term) {
        Node::Var(x) => Some(x + spot.context),
        Node::Elem(_) => None,
        Node::App(_, _) => None,
    }
}

/// Whether this variable does.
#[tactic(auto, using(crate::proofs::Seen::is_this, crate::proofs::Seen::is_none))]
pub fn is_variable(bank: &Bank, x: u64, spot: Spot) -> bool
    requires { IsSpot bank.now spot }
    ensures { result ≡ same_tree (var x) (spot_tree bank.now spot) }
{
    match variable_of(bank, spot) {
        Some(y) => x == y,
        None => false,
    }
}

/// Whether two spots are one.
pub fn same(p: Spot, q: Spot) -> bool
    ensures { result ≡ same_spot p q }
{
    p.term.0 == q.term.0 && p.context == q.context
}

/// Whether the spot is one of these.
pub fn is_among(spots: &Vec<Spot>, p: Spot) -> bool
    ensures { IsTrue result ↔ In p spots.now.items }
{
    for q in spots {
        if same(p, *q) {
            return true;
        }
    }
    false
}

/// Whether the variable is one of these.
pub fn shows(bank: &Bank, spots: &Vec<Spot>, x: u64) -> bool
    requires { AllSpots bank.now spots.now.items }
    ensures { IsTrue result ↔ IsShownIn bank.now spots.now.items x }
{
    for p in spots {
        if is_variable(bank, x, *p) {
            return true;
        }
    }
    false
}
