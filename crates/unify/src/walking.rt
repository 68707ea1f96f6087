// What bindings and links lead to.
ghost use Rattle.std.specs.Prelude.{◌≡◌};
ghost use Rattle.unify.specs.Bindings.{IsSpot, AreSpots};
ghost use Rattle.unify.specs.Steps.{walked, linked};

use crate::looking::{is_variable, same};
use crate::spot::{Bound, Link, Spot};
use term_bank::Bank;

/// The term that is bound to a variable, and to that in turn.
pub fn walk(bank: &Bank, bound: &Vec<Bound>, spot: Spot) -> Spot
    requires spot { IsSpot bank.now spot }
    requires bound { AreSpots bank.now bound.now.items }
    ensures result { result ≡ walked bank.now bound.now.items spot }
    ensures spot { IsSpot bank.now result }
{
    let mut spot = spot;
    for b in bound {
        if is_variable(bank, b.variable, spot) {
            spot = b.to;
        }
    }
    spot
}

/// The one that stands for a class.
pub fn follow(links: &Vec<Link>, spot: Spot) -> Spot
    ensures { result ≡ linked links.now.items spot }
{
    let mut spot = spot;
    for link in links {
        if same(link.from, spot) {
            spot = link.to;
        }
    }
    spot
}
