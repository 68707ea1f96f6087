// Nodes that are to be made the same: whether they can be, and by what.
ghost use Rattle.std.specs.Prelude.{◌≡◌, ◌↔◌, IsTrue, MatchOption, length};
ghost use Rattle.fol_core.specs.Substitutions.{Substitution};
ghost use Rattle.substitutions.specs.Bindings.{by_bindings};
ghost use Rattle.term_unifiers.specs.Arenas.{shapes_of};
ghost use Rattle.term_unifiers.specs.Entered.{IsEntered, left_terms, right_terms};
ghost use Rattle.fol_core.specs.Tree.{trees_of};
ghost use Rattle.term_unifiers.specs.Solved.{HasNoUnifier};
ghost use Rattle.unifiers.specs.Unifier.{IsMostGeneral, Unifies};

use crate::entered::Entered;
use crate::found::Found;
use crate::measuring::measures_of;
use crate::merging::merge;
use crate::ordering::order_of;
use crate::solution::Solution;
use clause_limits::Measure;

// Whether nodes, each and each, have a unifier.
fn merges_all(nodes: Entered) -> bool
    requires nodes { IsEntered nodes }
    requires even { length nodes.work.lefts.items ≡ length nodes.work.rights.items }
    ensures { IsTrue result
        ↔ ((u : Substitution) × Unifies u (trees_of (left_terms nodes)) (trees_of (right_terms nodes))) }
{
    let Entered {
        arena,
        mut work,
        walk,
    } = nodes;
    if !merge(&arena, &mut work) {
        return false;
    }
    match order_of(&arena, &work, walk) {
        None => false,
        Some(_order) => true,
    }
}

// A most general unifier of nodes, each and each, if they have one.
fn unifier(nodes: Entered, measures: Vec<Measure>) -> Option<Solution>
    requires nodes { IsEntered nodes }
    requires even { length nodes.work.lefts.items ≡ length nodes.work.rights.items }
    requires measures { length measures.items ≡ length (shapes_of nodes.arena) }
    ensures { MatchOption result
        (HasNoUnifier (trees_of (left_terms nodes)) (trees_of (right_terms nodes)))
        (λ s. IsMostGeneral (by_bindings s) (trees_of (left_terms nodes))
        (trees_of (right_terms nodes))) }
{
    let Entered {
        arena,
        mut work,
        walk,
    } = nodes;
    if !merge(&arena, &mut work) {
        return None;
    }
    match order_of(&arena, &work, walk) {
        None => None,
        Some(order) => {
            let measures = measures_of(&arena, &work, &order, measures);
            Some(Solution::new(Found {
                arena,
                work,
                order,
                measures,
            }))
        }
    }
}

/// Whether there is a unifier: as many nodes have to stand on both sides.
pub fn have_unifier(nodes: Entered) -> bool
    requires { IsEntered nodes }
    ensures { IsTrue result
        ↔ ((u : Substitution) × Unifies u (trees_of (left_terms nodes)) (trees_of (right_terms nodes))) }
{
    if nodes.work.lefts.len() != nodes.work.rights.len() {
        return false;
    }
    merges_all(nodes)
}

/// A most general one, if there is one.
pub fn unifier_of(nodes: Entered, measures: Vec<Measure>) -> Option<Solution>
    requires nodes { IsEntered nodes }
    requires measures { length measures.items ≡ length (shapes_of nodes.arena) }
    ensures { MatchOption result
        (HasNoUnifier (trees_of (left_terms nodes)) (trees_of (right_terms nodes)))
        (λ s. IsMostGeneral (by_bindings s) (trees_of (left_terms nodes))
        (trees_of (right_terms nodes))) }
{
    if nodes.work.lefts.len() != nodes.work.rights.len() {
        return None;
    }
    unifier(nodes, measures)
}
