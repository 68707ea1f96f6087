// An order of classes: each stands behind those of its schema's arguments.
ghost use Rattle.std.specs.Prelude.{true, ◌<◌, ◌≤◌, ◌≡◌, ◌++◌, ◌∷◌, [], IfSome, MatchOption, length};
ghost use Rattle.term_unifiers.specs.Arenas.{IsArena, shapes_of};
ghost use Rattle.term_unifiers.specs.Classes.{AllIn, AreClasses, IsCyclic, OrdersAll, arguments_of, children, classes_of};
ghost use Rattle.term_unifiers.specs.Merging.{merging_of};
ghost use Rattle.term_unifiers.specs.Rooms.{HasPlaces, IsUnstarted, KeepsPlaces};
ghost use Rattle.term_unifiers.specs.Shapes.{shape_at};
ghost use Rattle.term_unifiers.specs.declared.walk.Mark.TheVariants.{New};
ghost use Rattle.term_unifiers.specs.Walking.{IsChild, IsWalk, Advances, Rests, Visits, mark_at};

use crate::arena::view;
use crate::node::{Arena, View};
use crate::walk::{Frame, Mark, Walk};
use crate::work::Work;

// The arguments of a node.
fn arguments_at(arena: &Arena, n: usize) -> &[usize]
    requires arena { IsArena arena.now }
    requires within { n < length (shapes_of arena.now) }
    ensures { result.now ≡ arguments_of (shape_at (shapes_of arena.now) n) }
{
    match view(arena, n) {
        View::Variable(_) => &[],
        View::Element(_) => &[],
        View::Application(_, arguments) => arguments,
    }
}

// The class of the next argument of a class on the way, if one is left.
fn next_child(arena: &Arena, work: &Work, frame: Frame) -> Option<usize>
    requires arena { IsArena arena.now }
    requires classes { AreClasses (classes_of (shapes_of arena.now) (merging_of work.now)) }
    requires within { frame.root < length (shapes_of arena.now) }
    ensures child { MatchOption result
        (length (children (classes_of (shapes_of arena.now) (merging_of work.now)) frame.root)
        ≤ frame.next)
        (IsChild (classes_of (shapes_of arena.now) (merging_of work.now)) frame.root frame.next) }
    ensures few { IfSome result (λ x. frame.next < 18446744073709551615) }
{
    let arguments = arguments_at(arena, work.schemas[frame.root]);
    if frame.next < arguments.len() {
        Some(work.links[arguments[frame.next]])
    } else {
        None
    }
}

// Looks at the next argument of the innermost class on the way, or ends it where none is left.
fn advance(arena: &Arena, work: &Work, walk: &mut Walk, frame: Frame) -> bool
    requires arena { IsArena arena.now }
    requires classes { AreClasses (classes_of (shapes_of arena.now) (merging_of work.now)) }
    requires walk { IsWalk (classes_of (shapes_of arena.now) (merging_of work.now))
        walk.old.marks.items walk.old.order.items (walk.old.frames.items ++ frame ∷ []) }
    requires places { HasPlaces 1 walk.old }
    ensures advances { Advances (classes_of (shapes_of arena.now) (merging_of work.now)) walk.old
        frame walk.new result }
    ensures places { KeepsPlaces walk.new result }
{
    match next_child(arena, work, frame) {
        None => {
            walk.order.push_reserved(frame.root);
            walk.marks[frame.root] = Mark::Done;
            true
        }
        Some(child) => match walk.marks[child] {
            Mark::Done => {
                let later = Frame {
                    root: frame.root,
                    next: frame.next + 1,
                };
                walk.frames.push_reserved(later);
                true
            }
            Mark::Open => false,
            Mark::New => {
                walk.frames.push_reserved(frame);
                let inner = Frame {
                    root: child,
                    next: 0,
                };
                walk.frames.push_reserved(inner);
                walk.marks[child] = Mark::Open;
                true
            }
        },
    }
}

// Puts a class that wasn't looked at into the order, behind those that it leads to, unless one of them
// leads to itself.
fn walk_from(arena: &Arena, work: &Work, walk: &mut Walk, root: usize) -> bool
    requires arena { IsArena arena.now }
    requires classes { AreClasses (classes_of (shapes_of arena.now) (merging_of work.now)) }
    requires walk { Rests (classes_of (shapes_of arena.now) (merging_of work.now)) walk.old }
    requires root { root < length (shapes_of arena.now) }
    requires new { mark_at walk.old.marks.items root ≡ New }
    requires places { HasPlaces 0 walk.old }
    ensures visits { Visits (classes_of (shapes_of arena.now) (merging_of work.now)) walk.old
        walk.new root result }
    ensures places { KeepsPlaces walk.new result }
{
    walk.frames.push_reserved(Frame { root, next: 0 });
    walk.marks[root] = Mark::Open;
    'walk: while let Some(frame) = walk.frames.pop() {
        if !advance(arena, work, walk, frame) {
            return false;
        }
    }
    true
}

// Whether the classes of all arguments are in the order.
fn is_next(arena: &Arena, work: &Work, walk: &Walk, root: usize) -> bool
    requires arena { IsArena arena.now }
    requires classes { AreClasses (classes_of (shapes_of arena.now) (merging_of work.now)) }
    requires walk { Rests (classes_of (shapes_of arena.now) (merging_of work.now)) walk.now }
    requires root { root < length (shapes_of arena.now) }
    ensures { result ≡ true
        → AllIn (children (classes_of (shapes_of arena.now) (merging_of work.now)) root)
        walk.now.order.items }
{
    for argument in arguments_at(arena, work.schemas[root]) {
        let child = work.links[*argument];
        match walk.marks[child] {
            Mark::Done => {}
            _ => return false,
        }
    }
    true
}

// The same of any class: where it is next, it is put into the order at once.
fn visit(arena: &Arena, work: &Work, walk: &mut Walk, root: usize) -> bool
    requires arena { IsArena arena.now }
    requires classes { AreClasses (classes_of (shapes_of arena.now) (merging_of work.now)) }
    requires walk { Rests (classes_of (shapes_of arena.now) (merging_of work.now)) walk.old }
    requires root { root < length (shapes_of arena.now) }
    requires places { HasPlaces 0 walk.old }
    ensures visits { Visits (classes_of (shapes_of arena.now) (merging_of work.now)) walk.old
        walk.new root result }
    ensures places { KeepsPlaces walk.new result }
{
    match walk.marks[root] {
        Mark::Done => true,
        Mark::Open => true,
        Mark::New => {
            if !is_next(arena, work, walk, root) {
                return walk_from(arena, work, walk, root);
            }
            walk.order.push_reserved(root);
            walk.marks[root] = Mark::Done;
            true
        }
    }
}

/// An order of all classes, unless a class leads to itself, by a walk that hasn't begun.
pub fn order_of(arena: &Arena, work: &Work, mut walk: Walk) -> Option<Vec<usize>>
    requires arena { IsArena arena.now }
    requires classes { AreClasses (classes_of (shapes_of arena.now) (merging_of work.now)) }
    requires walk { IsUnstarted (length (shapes_of arena.now)) walk }
    ensures { MatchOption result
        (IsCyclic (classes_of (shapes_of arena.now) (merging_of work.now)))
        (λ order. OrdersAll (classes_of (shapes_of arena.now) (merging_of work.now)) order.items) }
{
    for n in 0..arena.nodes.len() {
        let root = work.links[n];
        if !visit(arena, work, &mut walk, root) {
            return None;
        }
    }
    let Walk {
        marks: _marks,
        order,
        frames: _frames,
    } = walk;
    Some(order)
}
