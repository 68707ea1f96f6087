// How great the terms of classes are.
ghost use Rattle.std.specs.Prelude.{ℕ, ◌<◌, ◌≤◌, ◌≡◌, IfOk, length};
ghost use Rattle.fol_core.specs.Tree.{var};
ghost use Rattle.term_unifiers.specs.Arenas.{IsArena, shapes_of};
ghost use Rattle.term_unifiers.specs.Classes.{AreClasses, OrdersAll, arguments_of, class_terms, classes_of};
ghost use Rattle.term_unifiers.specs.Measures.{AreMeasured, IsAbove, measure_at};
ghost use Rattle.term_unifiers.specs.Merging.{merging_of, nth};
ghost use Rattle.term_unifiers.specs.Shapes.{AreBelow, shape_at};

use crate::arena::view;
use crate::node::{Arena, View};
use crate::work::Work;
use clause_limits::Measure;
use std::alloc::{AllocError, Global};

// A symbol over arguments of measured classes.
fn above(links: &[usize], measures: &[Measure], arguments: &[usize]) -> Measure
    requires arguments { AreBelow (length links.now) arguments.now }
    requires links { AreBelow (length measures.now) links.now }
    ensures { IsAbove links.now measures.now arguments.now result }
{
    let mut size = 1u64;
    let mut depth = 0u64;
    for argument in arguments {
        let other = measures[links[*argument]];
        size = size.saturating_add(other.size);
        depth = depth.max(other.depth);
    }
    Measure {
        size,
        depth: depth.saturating_add(1),
    }
}

// How great a class's term is, by those of its arguments.
fn measured(arena: &Arena, work: &Work, measures: &[Measure], root: usize) -> Measure
    requires arena { IsArena arena.now }
    requires classes { AreClasses (classes_of (shapes_of arena.now) (merging_of work.now)) }
    requires root { root < length (shapes_of arena.now) }
    requires len { length measures.now ≡ length (shapes_of arena.now) }
    ensures { IsAbove work.now.links.items measures.now
        (arguments_of (shape_at (shapes_of arena.now) (nth work.now.schemas.items root))) result }
{
    match view(arena, work.schemas[root]) {
        View::Variable(_) => Measure { size: 1, depth: 1 },
        View::Element(_) => Measure { size: 1, depth: 1 },
        View::Application(_, arguments) => above(work.links.as_slice(), measures, arguments),
    }
}

/// How great the term of each class is, with room for that by node.
pub fn measures_of(
    arena: &Arena,
    work: &Work,
    order: &Vec<usize>,
    mut measures: Vec<Measure>,
) -> Vec<Measure>
    requires arena { IsArena arena.now }
    requires classes { AreClasses (classes_of (shapes_of arena.now) (merging_of work.now)) }
    requires order { OrdersAll (classes_of (shapes_of arena.now) (merging_of work.now))
        order.now.items }
    requires room { length measures.items ≡ length (shapes_of arena.now) }
    ensures { AreMeasured
        (class_terms (classes_of (shapes_of arena.now) (merging_of work.now)) var order.now.items)
        order.now.items (length (shapes_of arena.now)) result.items }
{
    for root in order {
        let measure = measured(arena, work, measures.as_slice(), *root);
        measures[*root] = measure;
    }
    measures
}

/// The most symbols and variables that are noted, and no fewer than one.
pub fn most_symbols(measures: &[Measure]) -> u64
    ensures one { 1 ≤ result }
    ensures all { (n : ℕ) → n < length measures.now → (measure_at measures.now n).size ≤ result }
{
    let mut most = 1u64;
    for measure in measures {
        most = most.max(measure.size);
    }
    most
}

/// Room for measures by node.
pub fn unmeasured(alloc: Global, count: usize) -> Result<Vec<Measure>, AllocError>
    ensures { IfOk result (λ measures. length measures.items ≡ count) }
{
    let nothing = Measure { size: 0, depth: 0 };
    vec![in alloc; nothing; count]
}
