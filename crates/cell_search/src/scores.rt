// What cells are preferred by in a choice.
ghost use Rattle.std.specs.Prelude.{ℕ, ◌≡◌, ◌<◌, true, false, length};
ghost use Rattle.std.specs.List.{slice_index_or};
ghost use Rattle.cell_choice.specs.Choosing.{is_up_to};
ghost use Rattle.cell_choice.specs.Shapes.{cell_shapes};
ghost use Rattle.cell_search.specs.Losses.{IsBoard};
ghost use Rattle.cell_search.specs.Phases.{IsClosedTable};
ghost use Rattle.cell_search.specs.Scores.{AreScores, by_trials, is_ranked, trial_score};
ghost use Rattle.cell_search.specs.Searchable.{HasAllCells};
ghost use Rattle.cell_search.specs.Viewing.{left_in};
ghost use Rattle.cell_search.specs.Ways.{AreWays};
ghost use Rattle.mace_cells.specs.World.{cell_of, many_cells};
ghost use Rattle.model_tables.specs.Size.{AllBelow};

use crate::occurrences::count;
use crate::setup::Setup;
use crate::trying::trials;
use crate::walk::Group;
use cell_choice::{CellShape, is_up_to};
use mace_cells::{CellMeasure, Trail};

/// Whether the cells without a value are ranked by a measure, so that no scores have to be worked out.
pub fn is_ranked(measure: CellMeasure) -> bool
    ensures { result ≡ is_ranked measure }
{
    match measure {
        CellMeasure::First | CellMeasure::MostCrossed => true,
        CellMeasure::MostOccurrences | CellMeasure::MostAssigned | CellMeasure::MostContradicted =>
            false,
    }
}

// What counts of the trials of a cell's values.
fn by_trials(measure: CellMeasure, assigned: u64, contradicted: u64) -> u64
    ensures { result ≡ by_trials measure assigned contradicted }
{
    match measure {
        CellMeasure::MostAssigned => assigned,
        CellMeasure::MostContradicted => contradicted,
        CellMeasure::First | CellMeasure::MostOccurrences | CellMeasure::MostCrossed => 0,
    }
}

// Tries the values of each cell without a value that has an index up to the limit.
fn try_cells(
    setup: &Setup,
    trail: &mut Trail,
    shapes: &[CellShape],
    groups: &[Group],
    env: &mut [u32],
    limit: u8,
    scores: &mut [u64],
)
    requires board { IsBoard setup.now trail.old }
    requires cells { HasAllCells setup.now }
    requires closed { IsClosedTable setup.now trail.old }
    requires shapes { shapes.now ≡ cell_shapes setup.now.size setup.now.blocks }
    requires ways { AreWays setup.now groups.now (length env.old) }
    requires env { AllBelow setup.now.size env.old }
    requires many { length scores.old ≡ many_cells setup.now }
    ensures same { trail.new ≡ trail.old }
    ensures env { AllBelow setup.now.size env.new }
    ensures many { length env.new ≡ length env.old }
    ensures room { length scores.new ≡ length scores.old }
    ensures scores { (k : ℕ) → k < many_cells setup.now → is_up_to trail.old limit k ≡ true
        → slice_index_or scores.new k 0
        ≡ trial_score setup.now (left_in setup.now trail.old) (cell_of setup.now k) }
{
    let measure = setup.way().measure;
    for cell in 0..setup.cells() {
        if is_up_to(trail, shapes, limit, cell) {
            let (assigned, contradicted) = trials(setup, trail, groups, env, cell);
            scores[cell as usize] = by_trials(measure, assigned, contradicted);
        }
    }
}

/// Works out the scores of the cells without a value that have an index up to the limit.
pub fn score(
    setup: &Setup,
    trail: &mut Trail,
    shapes: &[CellShape],
    groups: &[Group],
    env: &mut [u32],
    limit: u8,
    scores: &mut [u64],
)
    requires board { IsBoard setup.now trail.old }
    requires cells { HasAllCells setup.now }
    requires closed { IsClosedTable setup.now trail.old }
    requires shapes { shapes.now ≡ cell_shapes setup.now.size setup.now.blocks }
    requires ways { AreWays setup.now groups.now (length env.old) }
    requires env { AllBelow setup.now.size env.old }
    requires measure { is_ranked setup.now.way.measure ≡ false }
    requires many { length scores.old ≡ many_cells setup.now }
    ensures same { trail.new ≡ trail.old }
    ensures env { AllBelow setup.now.size env.new }
    ensures many { length env.new ≡ length env.old }
    ensures room { length scores.new ≡ length scores.old }
    ensures scores { AreScores setup.now trail.old limit scores.new }
{
    match setup.way().measure {
        CellMeasure::First | CellMeasure::MostCrossed => {}
        CellMeasure::MostOccurrences => count(setup, trail, env, scores),
        CellMeasure::MostAssigned | CellMeasure::MostContradicted => {
            try_cells(setup, trail, shapes, groups, env, limit, scores);
        }
    }
}
