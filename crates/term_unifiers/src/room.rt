// Room taken for all that merging nodes and walking over their classes needs.
ghost use Rattle.std.specs.Prelude.{◌≡◌, IfOk, length};
ghost use Rattle.term_unifiers.specs.Arenas.{IsArena, shapes_of};
ghost use Rattle.term_unifiers.specs.Entered.{IsEntered};
ghost use Rattle.term_unifiers.specs.Merging.{CountsUp};
ghost use Rattle.term_unifiers.specs.Rooms.{HasRoom, IsUnstarted};
ghost use Rattle.term_unifiers.specs.Shapes.{AreBelow};

use crate::entered::Entered;
use crate::linking::apart;
use crate::node::Arena;
use crate::walk::{Mark, Walk};
use crate::work::Work;
use std::alloc::{AllocError, Global};

// No class was looked at, and there is room for all of them.
fn start(alloc: Global, count: usize) -> Result<Walk, AllocError>
    ensures { IfOk result (IsUnstarted count) }
{
    let order = Vec::with_capacity(alloc, count)?;
    let frames = Vec::with_capacity(alloc, count)?;
    let mut marks = Vec::with_capacity(alloc, count)?;
    marks.resize(count, Mark::New)?;
    Ok(Walk {
        marks,
        order,
        frames,
    })
}

// Each node is a class of its own, and there is room for as many pairs as there are arguments.
fn begin(
    alloc: Global,
    arena: &Arena,
    mut lefts: Vec<usize>,
    mut rights: Vec<usize>,
) -> Result<Work, AllocError>
    requires { IsArena arena.now }
    ensures links { IfOk result (λ w. CountsUp w.links.items (length (shapes_of arena.now))) }
    ensures schemas { IfOk result (λ w. CountsUp w.schemas.items (length (shapes_of arena.now))) }
    ensures lefts { IfOk result (λ w. w.lefts.items ≡ lefts.items) }
    ensures rights { IfOk result (λ w. w.rights.items ≡ rights.items) }
    ensures room { IfOk result (λ w. length lefts.items ≡ length rights.items
        → HasRoom (shapes_of arena.now) w) }
{
    let count = arena.nodes.len();
    let most = arena.arguments.len();
    lefts.reserve(most)?;
    rights.reserve(most)?;
    let links = apart(alloc, count)?;
    let schemas = apart(alloc, count)?;
    Ok(Work {
        links,
        schemas,
        lefts,
        rights,
    })
}

/// Nodes that are to be made the same, each and each, with room for that.
pub fn enter(
    alloc: Global,
    arena: Arena,
    lefts: Vec<usize>,
    rights: Vec<usize>,
) -> Result<Entered, AllocError>
    requires arena { IsArena arena }
    requires lefts { AreBelow (length (shapes_of arena)) lefts.items }
    requires rights { AreBelow (length (shapes_of arena)) rights.items }
    ensures entered { IfOk result IsEntered }
    ensures arena { IfOk result (λ e. e.arena ≡ arena) }
    ensures lefts { IfOk result (λ e. e.work.lefts.items ≡ lefts.items) }
    ensures rights { IfOk result (λ e. e.work.rights.items ≡ rights.items) }
{
    let work = begin(alloc, &arena, lefts, rights)?;
    let walk = start(alloc, arena.nodes.len())?;
    Ok(Entered { arena, work, walk })
}
