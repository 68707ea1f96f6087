// Terms put into an arena.
ghost use Rattle.std.specs.Prelude.{◌≡◌, ◌<◌, ◌≤◌, ◌+◌, ℕ, List, [], IfOk, length, take, drop};
ghost use Rattle.term_unifiers.specs.Arenas.{IsArena, IsNode, IsApplied, IsPlaced, shape_of, shapes_of, view_shape, whole};
ghost use Rattle.term_unifiers.specs.Shapes.{AreBelow, variable, element, application, shape_at};

use crate::naming::{empty_variables, name_node, no_variables, node_of};
use crate::node::{Arena, Node, View};
use std::alloc::{AllocError, Global};

// One more than the lower 64 bits of a number may be.
const UPPER: u128 = 18_446_744_073_709_551_616;

// A number by its upper and its lower bits.
fn whole(upper: u64, lower: u64) -> u128
    ensures { result ≡ whole upper lower }
{
    let raised = upper as u128 * UPPER;
    raised + lower as u128
}

// What is kept of a variable.
fn variable_node(x: u128) -> Node
    ensures placed { (n : ℕ) → IsPlaced n result }
    ensures shape { (arguments : List ℕ) → shape_of arguments result ≡ variable x }
{
    Node::Variable((x / UPPER) as u64, (x % UPPER) as u64)
}

// What is kept of a node.
fn node(arena: &Arena, n: usize) -> Node
    requires arena { IsArena arena.now }
    requires within { n < length (shapes_of arena.now) }
    ensures placed { IsPlaced (length arena.now.arguments.items) result }
    ensures shape { shape_of arena.now.arguments.items result ≡ shape_at (shapes_of arena.now) n }
{
    arena.nodes[n]
}

// A part of a list.
fn part(all: &[usize], first: usize, count: usize) -> &[usize]
    requires { first + count ≤ length all.now }
    ensures { result.now ≡ take count (drop first all.now) }
{
    let behind = &all[first..];
    &behind[..count]
}

/// What stands at a node.
pub fn view(arena: &Arena, n: usize) -> View<'_>
    requires arena { IsArena arena.now }
    requires within { n < length (shapes_of arena.now) }
    ensures { view_shape result ≡ shape_at (shapes_of arena.now) n }
{
    match node(arena, n) {
        Node::Variable(upper, lower) => View::Variable(whole(upper, lower)),
        Node::Element(k) => View::Element(k),
        Node::Application(f, first, count) => {
            View::Application(f, part(arena.arguments.as_slice(), first, count))
        }
    }
}

/// No terms, and room for so many nodes.
pub fn roomy_arena(alloc: Global, room: usize) -> Result<Arena, AllocError>
    ensures arena { IfOk result (λ a. IsArena a) }
    ensures empty { IfOk result (λ a. shapes_of a ≡ []) }
{
    Ok(Arena {
        nodes: Vec::with_capacity(alloc, room)?,
        arguments: Vec::with_capacity(alloc, room)?,
        variables: no_variables(alloc, room)?,
    })
}

/// No terms, and no memory.
pub fn empty_arena(alloc: Global) -> Arena
    ensures arena { IsArena result }
    ensures empty { shapes_of result ≡ [] }
{
    Arena {
        nodes: Vec::new(alloc),
        arguments: Vec::new(alloc),
        variables: empty_variables(alloc),
    }
}

/// The node of a variable.
pub fn enter_variable(arena: &mut Arena, x: u128) -> Result<usize, AllocError>
    requires { IsArena arena.old }
    ensures { IfOk result (IsNode arena.old arena.new (variable x)) }
{
    match node_of(&arena.variables, x) {
        Some(n) => Ok(n),
        None => {
            let n = arena.nodes.len();
            arena.nodes.push(variable_node(x))?;
            name_node(&mut arena.variables, x, n)?;
            Ok(n)
        }
    }
}

/// A node for an element.
pub fn enter_element(arena: &mut Arena, k: u32) -> Result<usize, AllocError>
    requires { IsArena arena.old }
    ensures { IfOk result (IsNode arena.old arena.new (element k)) }
{
    let n = arena.nodes.len();
    arena.nodes.push(Node::Element(k))?;
    Ok(n)
}

// A node for a symbol with arguments.
fn enter_application(arena: &mut Arena, f: u64, arguments: &[usize]) -> Result<usize, AllocError>
    requires arena { IsArena arena.old }
    requires arguments { AreBelow (length (shapes_of arena.old)) arguments.now }
    ensures { IfOk result (IsNode arena.old arena.new (application f arguments.now)) }
{
    let first = arena.arguments.len();
    arena.arguments.extend_from_slice(arguments)?;
    let n = arena.nodes.len();
    arena
        .nodes
        .push(Node::Application(f, first, arguments.len()))?;
    Ok(n)
}

/// The numbers from a place on are taken as a node's arguments, and the node's is put there.
pub fn apply(
    arena: &mut Arena,
    f: u64,
    first: usize,
    numbers: &mut Vec<usize>,
) -> Result<(), AllocError>
    requires arena { IsArena arena.old }
    requires first { first ≤ length numbers.old.items }
    requires arguments { AreBelow (length (shapes_of arena.old)) (drop first numbers.old.items) }
    ensures { IfOk result (λ r. IsApplied arena.old arena.new f first numbers.old.items
        numbers.new.items) }
{
    let n = enter_application(arena, f, &numbers.as_slice()[first..])?;
    numbers.truncate(first);
    numbers.push(n)?;
    Ok(())
}
