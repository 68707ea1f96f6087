// Trying the values that cells have left, to see what comes of them.
ghost use Rattle.std.specs.Prelude.{◌≡◌, ◌+◌, ◌*◌, ◌<◌, ◌≤◌, None, false, IfSome, length};
ghost use Rattle.cell_search.specs.Losses.{IsBoard};
ghost use Rattle.cell_search.specs.Phases.{IsClosedTable};
ghost use Rattle.cell_search.specs.Searchable.{HasAllCells};
ghost use Rattle.cell_search.specs.Trials.{come_of};
ghost use Rattle.cell_search.specs.Viewing.{left_in};
ghost use Rattle.cell_search.specs.Ways.{AreWays};
ghost use Rattle.mace_cells.specs.Trails.{is_struck_off, value_in};
ghost use Rattle.mace_cells.specs.World.{cell_of, many_cells};
ghost use Rattle.model_tables.specs.Size.{AllBelow, bound_of};
ghost use Rattle.plain_search.specs.Trying.{assignments, contradictions};

use crate::going::close;
use crate::setup::Setup;
use crate::walk::Group;
use mace_cells::Trail;

// How many other cells get a value where this one has this value, or that the clauses contradict that. All is taken back.
fn trial(
    setup: &Setup,
    trail: &mut Trail,
    groups: &[Group],
    env: &mut [u32],
    cell: u32,
    value: u8,
) -> Option<usize>
    requires board { IsBoard setup.now trail.old }
    requires cells { HasAllCells setup.now }
    requires closed { IsClosedTable setup.now trail.old }
    requires ways { AreWays setup.now groups.now (length env.old) }
    requires env { AllBelow setup.now.size env.old }
    requires cell { cell < many_cells setup.now }
    requires blank { value_in trail.old.entries cell ≡ None }
    requires value { value < bound_of setup.now.size (cell_of setup.now cell).kind }
    requires left { is_struck_off (cell * trail.old.stride + value) trail.old.crossings ≡ false }
    ensures same { trail.new ≡ trail.old }
    ensures env { AllBelow setup.now.size env.new }
    ensures many { length env.new ≡ length env.old }
    ensures come { result ≡ come_of setup.now (left_in setup.now trail.old)
        (cell_of setup.now cell) value }
    ensures few { IfSome result (λ n. n ≤ many_cells setup.now) }
{
    let head = trail.len();
    trail.assign(cell, value, true);
    let closed = close(setup, trail, groups, env, head);
    let others = trail.len() - head - 1;
    trail.undo();
    if closed { Some(others) } else { None }
}

/// How many other cells the values that a cell has left give a value, together, and how many of them the clauses contradict. All is
/// taken back.
pub fn trials(
    setup: &Setup,
    trail: &mut Trail,
    groups: &[Group],
    env: &mut [u32],
    cell: u32,
) -> (u64, u64)
    requires board { IsBoard setup.now trail.old }
    requires cells { HasAllCells setup.now }
    requires closed { IsClosedTable setup.now trail.old }
    requires ways { AreWays setup.now groups.now (length env.old) }
    requires env { AllBelow setup.now.size env.old }
    requires cell { cell < many_cells setup.now }
    requires blank { value_in trail.old.entries cell ≡ None }
    ensures same { trail.new ≡ trail.old }
    ensures env { AllBelow setup.now.size env.new }
    ensures many { length env.new ≡ length env.old }
    ensures assigned { result.0 ≡ assignments setup.now (left_in setup.now trail.old)
        (cell_of setup.now cell) }
    ensures contradicted { result.1 ≡ contradictions setup.now (left_in setup.now trail.old)
        (cell_of setup.now cell) }
{
    let mut assigned = 0;
    let mut contradicted = 0;
    for value in 0..setup.bound(cell) {
        let value = value as u8;
        if !trail.is_crossed(cell, value) {
            match trial(setup, trail, groups, env, cell, value) {
                Some(others) => assigned += others as u64,
                None => contradicted += 1,
            }
        }
    }
    (assigned, contradicted)
}
