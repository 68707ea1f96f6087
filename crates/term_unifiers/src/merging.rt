// Nodes merged into classes until no pair is left.
ghost use Rattle.term_unifiers.specs.Arenas.{IsArena, shapes_of};
ghost use Rattle.term_unifiers.specs.Merging.{CanUnite, IsMerging, Merges, Steps, merging_of, with_pair, Lessens};
ghost use Rattle.term_unifiers.specs.Rooms.{HasRoom, KeepsRoom};

use crate::comparing::compare;
use crate::linking::{find, flatten};
use crate::node::Arena;
use crate::work::{Comparison, Work};

// Merges the classes of two least nodes, unless their heads differ.
fn unite(arena: &Arena, work: &mut Work, low: usize, high: usize) -> bool
    requires arena { IsArena arena.now }
    requires unite { CanUnite (shapes_of arena.now) (merging_of work.old) low high }
    requires room { HasRoom (shapes_of arena.now) work.old }
    ensures steps { Steps (shapes_of arena.now) (with_pair low high (merging_of work.old))
        (merging_of work.new) result }
    ensures less { Lessens (shapes_of arena.now) (merging_of work.old) (merging_of work.new)
        result }
    ensures room { KeepsRoom (shapes_of arena.now) work.new result }
{
    let kept = work.schemas[low];
    let other = work.schemas[high];
    match compare(arena, kept, other, &mut work.lefts, &mut work.rights) {
        Comparison::Clash => false,
        Comparison::First => {
            work.links[high] = low;
            true
        }
        Comparison::Second => {
            work.schemas[low] = other;
            work.links[high] = low;
            true
        }
    }
}

// Merges the classes of two nodes.
fn equate(arena: &Arena, work: &mut Work, left: usize, right: usize) -> bool
    requires arena { IsArena arena.now }
    requires work { IsMerging (shapes_of arena.now) (with_pair left right (merging_of work.old)) }
    requires room { HasRoom (shapes_of arena.now) work.old }
    ensures steps { Steps (shapes_of arena.now) (with_pair left right (merging_of work.old))
        (merging_of work.new) result }
    ensures less { Lessens (shapes_of arena.now) (merging_of work.old) (merging_of work.new)
        result }
    ensures room { KeepsRoom (shapes_of arena.now) work.new result }
{
    let a = find(&mut work.links, left);
    let b = find(&mut work.links, right);
    if a < b {
        return unite(arena, work, a, b);
    }
    if b < a {
        return unite(arena, work, b, a);
    }
    true
}

/// Merges all pairs, and what follows of them, unless heads differ.
pub fn merge(arena: &Arena, work: &mut Work) -> bool
    requires arena { IsArena arena.now }
    requires work { IsMerging (shapes_of arena.now) (merging_of work.old) }
    requires room { HasRoom (shapes_of arena.now) work.old }
    ensures { Merges (shapes_of arena.now) (merging_of work.old) (merging_of work.new) result }
{
    'pairs: while let Some(left) = work.lefts.pop() {
        let Some(right) = work.rights.pop() else {
            return false;
        };
        if !equate(arena, work, left, right) {
            return false;
        }
    }
    flatten(&mut work.links);
    true
}
