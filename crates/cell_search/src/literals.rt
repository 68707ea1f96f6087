// The truth of literals, as far as it is known.
ghost use Rattle.std.specs.Prelude.{◌≡◌};
ghost use Rattle.cell_search.specs.Known.{equation_seen, atom_seen, literal_seen};
ghost use Rattle.fol_core.specs.ClauseView.{literal_of};
ghost use Rattle.fol_core.specs.TermView.{tree_of};
ghost use Rattle.fol_core.specs.Tree.{trees_of};
ghost use Rattle.mace_cells.specs.World.{many_cells};
ghost use Rattle.mace_ground.specs.Instances.{assigned_by};

use crate::seen::{number, seen};
use crate::setup::Setup;
use fol_core::{EQ, Kind, Literal, Term, Terms};
use mace_cells::Trail;

// The truth of an equation of two sides.
fn equation_truth(setup: &Setup, trail: &Trail, terms: &Terms, env: &[u32]) -> Option<bool>
    requires { trail.now.many ≡ many_cells setup.now }
    ensures { result ≡ equation_seen setup.now trail.now.entries (assigned_by env.now)
        (trees_of terms.now) }
{
    let [left, right] = terms.as_slice() else {
        return None;
    };
    let left = seen(setup, trail, left, env)?;
    let right = seen(setup, trail, right, env)?;
    Some(left == right)
}

// The truth of an atom.
fn atom_truth(setup: &Setup, trail: &Trail, atom: &Term, env: &[u32]) -> Option<bool>
    requires { trail.now.many ≡ many_cells setup.now }
    ensures { result ≡ atom_seen setup.now trail.now.entries (assigned_by env.now)
        (tree_of atom.now) }
{
    let Term::App(symbol, terms) = atom else {
        return None;
    };
    if symbol.0 == EQ.0 {
        return equation_truth(setup, trail, terms, env);
    }
    let cell = number(setup, trail, Kind::Relation, *symbol, terms, env)?;
    let value = trail.value(cell)?;
    Some(value == 1)
}

/// The truth of a literal, where it is known.
pub fn truth(setup: &Setup, trail: &Trail, literal: &Literal, env: &[u32]) -> Option<bool>
    requires { trail.now.many ≡ many_cells setup.now }
    ensures { result ≡ literal_seen setup.now trail.now.entries (assigned_by env.now)
        (literal_of literal.now) }
{
    let holds = atom_truth(setup, trail, &literal.atom, env)?;
    Some(if literal.positive { holds } else { !holds })
}
