// Terms under what is found.
ghost use Rattle.std.specs.Prelude.{ℕ, ◌≡◌, ◌<◌, ◌≤◌, MatchOption};
ghost use Rattle.fol_core.specs.Sizes.{size_of, saturated};
ghost use Rattle.fol_core.specs.Tree.{var};
ghost use Rattle.substitutions.specs.Bindings.{by_bindings};
ghost use Rattle.term_unifiers.specs.Solutions.{IsFound, HasClass, bindings_of};

use crate::found::Found;
use crate::measuring::most_symbols;
use crate::naming::node_of;
use fol_core::Terms;

/// The class of a variable, if it has a node.
pub fn class_of(found: &Found, x: u128) -> Option<usize>
    requires { IsFound found.now }
    ensures { MatchOption result
        (by_bindings (bindings_of found.now) x ≡ var x)
        (HasClass found.now x) }
{
    match node_of(&found.arena.variables, x) {
        Some(n) => Some(found.work.links[n]),
        None => None,
    }
}

/// A number of symbols and variables that no variable's term has more of, up to the greatest number.
#[tactic(auto, using(crate::proofs::Bindings::most_found))]
pub fn most_under(found: &Found) -> u64
    requires { IsFound found.now }
    ensures one { 1 ≤ result }
    ensures all { (x : ℕ) → saturated (size_of (by_bindings (bindings_of found.now) x)) ≤ result }
{
    most_symbols(found.measures.as_slice())
}
