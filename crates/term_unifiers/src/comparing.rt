// Heads of two nodes compared.
ghost use Rattle.std.specs.Prelude.{◌≡◌, ◌+◌, ◌<◌, ◌≤◌, ◌++◌, length, vec_len, vec_capacity};
ghost use Rattle.term_unifiers.specs.Arenas.{IsArena, shapes_of};
ghost use Rattle.term_unifiers.specs.Comparing.{Compared};
ghost use Rattle.term_unifiers.specs.Merging.{arity};
ghost use Rattle.term_unifiers.specs.Shapes.{shape_at};

use crate::arena::view;
use crate::node::{Arena, View};
use crate::work::Comparison;

// Puts numbers behind others, for which there is room.
fn put_behind(numbers: &mut Vec<usize>, more: &[usize])
    requires { vec_len numbers.old + length more.now ≤ vec_capacity numbers.old }
    ensures numbers { numbers.new.items ≡ numbers.old.items ++ more.now }
    ensures capacity { vec_capacity numbers.new ≡ vec_capacity numbers.old }
{
    for number in more {
        numbers.push_reserved(*number);
    }
}

/// Which of two nodes is no variable; where both are none and their heads are the same, their
/// arguments are put behind the pairs.
pub fn compare(
    arena: &Arena,
    p: usize,
    q: usize,
    lefts: &mut Vec<usize>,
    rights: &mut Vec<usize>,
) -> Comparison
    requires arena { IsArena arena.now }
    requires p { p < length (shapes_of arena.now) }
    requires q { q < length (shapes_of arena.now) }
    requires left_room { vec_len lefts.old + arity (shape_at (shapes_of arena.now) q)
        ≤ vec_capacity lefts.old }
    requires right_room { vec_len rights.old + arity (shape_at (shapes_of arena.now) q)
        ≤ vec_capacity rights.old }
    ensures compared { Compared (shapes_of arena.now) p q lefts.old.items rights.old.items
        lefts.new.items rights.new.items result }
    ensures left_capacity { vec_capacity lefts.new ≡ vec_capacity lefts.old }
    ensures right_capacity { vec_capacity rights.new ≡ vec_capacity rights.old }
{
    match view(arena, p) {
        View::Variable(_) => Comparison::Second,
        View::Element(k) => match view(arena, q) {
            View::Variable(_) => Comparison::First,
            View::Element(n) => {
                if k == n {
                    Comparison::First
                } else {
                    Comparison::Clash
                }
            }
            View::Application(_, _) => Comparison::Clash,
        },
        View::Application(f, ks) => match view(arena, q) {
            View::Variable(_) => Comparison::First,
            View::Element(_) => Comparison::Clash,
            View::Application(g, js) => {
                if f != g {
                    return Comparison::Clash;
                }
                if ks.len() != js.len() {
                    return Comparison::Clash;
                }
                put_behind(lefts, ks);
                put_behind(rights, js);
                Comparison::First
            }
        },
    }
}
