// Links from nodes to the least of their classes.
ghost use Rattle.std.specs.Prelude.{◌<◌, IfOk, length};
ghost use Rattle.term_unifiers.specs.Merging.{LeadDown, Shortened, IsLeast, IsFlat, CountsUp};

use std::alloc::{AllocError, Global};

/// The least node of a node's class; links on the way are shortened.
pub fn find(links: &mut Vec<usize>, start: usize) -> usize
    requires start { start < length links.old.items }
    requires down { LeadDown links.old.items }
    ensures shortened { Shortened links.old.items links.new.items }
    ensures least { IsLeast links.new.items start result }
{
    let mut n = start;
    'up: loop {
        let next = links[n];
        if next == n {
            return n;
        }
        let after = links[next];
        links[n] = after;
        n = after;
    }
}

/// Links each node to the least of its class.
pub fn flatten(links: &mut Vec<usize>)
    requires { LeadDown links.old.items }
    ensures shortened { Shortened links.old.items links.new.items }
    ensures flat { IsFlat links.new.items }
{
    for n in 0..links.len() {
        let next = links[n];
        let after = links[next];
        links[n] = after;
    }
}

/// Each number by itself.
pub fn apart(alloc: Global, count: usize) -> Result<Vec<usize>, AllocError>
    ensures { IfOk result (λ numbers. CountsUp numbers.items count) }
{
    let mut numbers = Vec::with_capacity(alloc, count)?;
    for n in 0..count {
        numbers.push_reserved(n);
    }
    Ok(numbers)
}
