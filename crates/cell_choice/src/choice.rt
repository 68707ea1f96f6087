// The choice of a cell.
ghost use Rattle.std.specs.Prelude.{◌≡◌, ◌<◌, ℕ, MatchOption, length, map};
ghost use Rattle.std.specs.List.{slice_index_or};
ghost use Rattle.cell_choice.specs.Choosing.{IsHighest, IsLimit, IsPicked, index_by, index_up_to, is_higher, is_up_to};
ghost use Rattle.mace_cells.specs.Trails.{IsBlank, score};

use crate::shape::CellShape;
use mace_cells::{Candidates, Trail};

/// The cell to be chosen by how many values are crossed off each, where the trail counts that; nothing where each has a value.
pub fn pick(trail: &Trail, candidates: Candidates, used: u32) -> Option<u32>
    ensures { MatchOption result ((k : ℕ) → IsBlank trail.now k → ⊥)
        (IsPicked (index_by trail.now) trail.now (score trail.now trail.now.ranking.counts)
        candidates used) }
{
    trail.first(index_up_to(candidates, used))
}

/// Up to which index candidates are; nothing where each cell has a value.
pub fn limit(trail: &Trail, shapes: &[CellShape], candidates: Candidates, used: u32) -> Option<u8>
    requires many { length shapes.now ≡ trail.now.many }
    requires indices { map (λ s. s.above) shapes.now ≡ trail.now.ranking.indices }
    ensures { MatchOption result ((k : ℕ) → IsBlank trail.now k → ⊥)
        (IsLimit (index_by trail.now) trail.now candidates used) }
{
    let first = trail.first(0)?;
    let least = shapes[first as usize].above;
    Some(index_up_to(candidates, used).max(least))
}

/// Whether a cell has no value, and an index up to the limit.
pub fn is_up_to(trail: &Trail, shapes: &[CellShape], limit: u8, cell: u32) -> bool
    requires cell { cell < trail.now.many }
    requires many { length shapes.now ≡ trail.now.many }
    requires indices { map (λ s. s.above) shapes.now ≡ trail.now.ranking.indices }
    ensures { result ≡ is_up_to trail.now limit cell }
{
    trail.value(cell).is_none() && shapes[cell as usize].above <= limit
}

// Whether a cell has a greater score than another one, if there is one.
fn is_higher(scores: &[u64], cell: u32, other: Option<u32>) -> bool
    requires cell { cell < length scores.now }
    requires other { MatchOption other (Unit {0}) (λ k. k < length scores.now) }
    ensures { result ≡ is_higher (λ k. slice_index_or scores.now k 0) cell other }
{
    match other {
        None => true,
        Some(other) => scores[other as usize] < scores[cell as usize],
    }
}

/// The first cell of the greatest score among those without a value that have an index up to the limit.
pub fn highest(trail: &Trail, shapes: &[CellShape], limit: u8, scores: &[u64]) -> Option<u32>
    requires many { length shapes.now ≡ trail.now.many }
    requires indices { map (λ s. s.above) shapes.now ≡ trail.now.ranking.indices }
    requires scores { length scores.now ≡ trail.now.many }
    ensures { IsHighest (is_up_to trail.now limit) (λ k. slice_index_or scores.now k 0)
        trail.now.many result }
{
    let mut best = None;
    for cell in 0..trail.cells() {
        if is_up_to(trail, shapes, limit, cell) && is_higher(scores, cell, best) {
            best = Some(cell);
        }
    }
    best
}

// Up to which index cells may be chosen.
fn index_up_to(candidates: Candidates, used: u32) -> u8
    ensures { result ≡ index_up_to candidates used }
{
    match candidates {
        Candidates::All => 255,
        Candidates::LeastIndex => 0,
        Candidates::InUse => used.min(255) as u8,
    }
}
