// Looks at instances of clauses.
ghost use Rattle.std.specs.Prelude.{◌≡◌, map};
ghost use Rattle.cell_search.specs.Asking.{InstanceTells};
ghost use Rattle.cell_search.specs.Telling.{told_of, told_seen};
ghost use Rattle.fol_core.specs.ClauseView.{literal_of};
ghost use Rattle.mace_cells.specs.World.{many_cells};
ghost use Rattle.mace_ground.specs.Instances.{assigned_by};

use crate::asks::{Ask, asked};
use crate::literals::truth;
use crate::setup::Setup;
use fol_core::Literal;
use mace_cells::Trail;

/// What an instance of a clause tells: nothing; that it can't be true; or what it asks, all its literals but one being false.
#[derive(Clone, Copy, Drop)]
pub enum Verdict {
    Quiet,
    Contradiction,
    Asks(Ask),
}

/// Looks at an instance of a clause.
pub fn look(setup: &Setup, trail: &Trail, literals: &[Literal], env: &[u32]) -> Verdict
    requires { trail.now.many ≡ many_cells setup.now }
    ensures tells { InstanceTells setup.now trail.now.entries (assigned_by env.now)
        (map literal_of literals.now) result }
    ensures seen { told_of setup.now result ≡ told_seen setup.now trail.now.entries
        (assigned_by env.now) (map literal_of literals.now) }
{
    let mut unknown = None;
    for (at, literal) in literals.iter().enumerate() {
        match truth(setup, trail, literal, env) {
            Some(true) => return Verdict::Quiet,
            Some(false) => {}
            None => {
                if unknown.is_some() {
                    return Verdict::Quiet;
                }
                unknown = Some(at);
            }
        }
    }
    let Some(at) = unknown else {
        return Verdict::Contradiction;
    };
    match asked(setup, trail, &literals[at], env) {
        None => Verdict::Quiet,
        Some(ask) => Verdict::Asks(ask),
    }
}
