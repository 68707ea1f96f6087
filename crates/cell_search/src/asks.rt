// What a literal that is to be true asks of a cell.
ghost use Rattle.std.specs.Prelude.{◌≡◌, ◌⊎◌, IfSome};
ghost use Rattle.cell_search.specs.Asking.{AreSides, IsAsked};
ghost use Rattle.cell_search.specs.Telling.{literal_asked, sides_seen};
ghost use Rattle.std.specs.Option.{option_or};
ghost use Rattle.fol_core.specs.ClauseView.{literal_of};
ghost use Rattle.fol_core.specs.TermView.{tree_of};
ghost use Rattle.mace_cells.specs.World.{many_cells};
ghost use Rattle.mace_ground.specs.Instances.{assigned_by};

use crate::seen::{number, seen};
use crate::setup::Setup;
use fol_core::{EQ, Kind, Literal, Term, Terms};
use mace_cells::Trail;

/// That a cell is to have a value, or not to have it.
#[derive(Clone, Copy, Drop)]
pub struct Ask {
    pub cell: u32,
    pub value: u32,
    pub positive: bool,
}

// The cell of a term, and the value of another.
fn sides(setup: &Setup, trail: &Trail, term: &Term, other: &Term, env: &[u32]) -> Option<(u32, u32)>
    requires { trail.now.many ≡ many_cells setup.now }
    ensures sides { IfSome result (λ p. AreSides setup.now trail.now.entries (assigned_by env.now)
        (tree_of term.now) (tree_of other.now) p) }
    ensures seen { result ≡ sides_seen setup.now trail.now.entries (assigned_by env.now)
        (tree_of term.now) (tree_of other.now) }
{
    let Term::App(symbol, terms) = term else {
        return None;
    };
    let value = seen(setup, trail, other, env)?;
    let cell = number(setup, trail, Kind::Function, *symbol, terms, env)?;
    Some((cell, value))
}

// The cell of one side of an equation, and the value of the other.
fn equation_sides(
    setup: &Setup,
    trail: &Trail,
    left: &Term,
    right: &Term,
    env: &[u32],
) -> Option<(u32, u32)>
    requires { trail.now.many ≡ many_cells setup.now }
    ensures sides { IfSome result (λ p. AreSides setup.now trail.now.entries (assigned_by env.now)
        (tree_of left.now) (tree_of right.now) p ⊎ AreSides setup.now trail.now.entries
        (assigned_by env.now) (tree_of right.now) (tree_of left.now) p) }
    ensures seen { result ≡ option_or
        (sides_seen setup.now trail.now.entries (assigned_by env.now) (tree_of left.now)
        (tree_of right.now))
        (sides_seen setup.now trail.now.entries (assigned_by env.now) (tree_of right.now)
        (tree_of left.now)) }
{
    match sides(setup, trail, left, right, env) {
        Some(found) => Some(found),
        None => sides(setup, trail, right, left, env),
    }
}

/// What a literal asks, where it is one cell that keeps it from being known.
pub fn asked(setup: &Setup, trail: &Trail, literal: &Literal, env: &[u32]) -> Option<Ask>
    requires { trail.now.many ≡ many_cells setup.now }
    ensures asked { IfSome result (λ a. IsAsked setup.now trail.now.entries
        (assigned_by env.now) (literal_of literal.now) a) }
    ensures seen { result ≡ literal_asked setup.now trail.now.entries (assigned_by env.now)
        (literal_of literal.now) }
{
    let positive = literal.positive;
    let Term::App(symbol, terms) = &literal.atom else {
        return None;
    };
    if symbol.0 != EQ.0 {
        let cell = number(setup, trail, Kind::Relation, *symbol, terms, env)?;
        let value = 1;
        return Some(Ask {
            cell,
            value,
            positive,
        });
    }
    let [left, right] = terms.as_slice() else {
        return None;
    };
    let (cell, value) = equation_sides(setup, trail, left, right, env)?;
    Some(Ask {
        cell,
        value,
        positive,
    })
}
