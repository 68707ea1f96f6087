// The free cells, each at its place in a tournament.
ghost use Rattle.std.specs.Prelude.{ℕ, ◌≡◌, ◌<◌, ◌^◌, true, false, if◌then◌else◌, [], None, IfOk, MatchOption, length, replicate, slice_set};
ghost use Rattle.std.specs.List.{slice_index_or};
ghost use Rattle.cell_ranks.specs.Ranks.{ranked, IsFree, IsForemost};

use crate::layout::{places, starts};
use crate::tournament::{first_of, put};
use std::alloc::{AllocError, Global};
use std::marker::Model;

/// Cells with an index and a score each, of which some are free; contracts see these, by the cell's number.
#[derive(Drop)]
pub struct Ranks {
    indices: Vec<u8>,
    free: Vec<bool>,
    scores: Vec<usize>,
    // Where each cell stands, by rising index.
    places: Vec<u32>,
    // How many cells have a lower index.
    starts: Vec<u32>,
    nodes: Vec<Option<u32>>,
}

impl Model for Ranks {
    ghost use Rattle.std.specs.List.{slice_index_or};
    ghost use Rattle.std.specs.Prelude.{ℕ, ◌≡◌, ◌*◌, ◌<◌, ◌^◌, length};
    ghost use Rattle.cell_ranks.specs.Layouts.{IsLayout};
    ghost use Rattle.cell_ranks.specs.Ranks.{Ranked, ranked, coded_ranked, AreAtPlaces};
    ghost use Rattle.cell_ranks.specs.Tournaments.{IsTournament};

    ghost Value = { Ranked };

    ghost coded = { coded_ranked };

    ghost view = { λ a. ranked a.indices.items a.free.items a.scores.items };

    ghost invariant = { λ a. record {
      layout : IsLayout a.indices.items a.places.items a.starts.items;
      few : length a.indices.items < 2 ^ 32;
      bytes : (k : ℕ) → slice_index_or a.indices.items k 0 < 256;
      many : length a.free.items ≡ length a.indices.items;
      nodes : length a.nodes.items ≡ 2 * length a.indices.items;
      won : IsTournament a.scores.items a.nodes.items (length a.indices.items);
      leaves : AreAtPlaces a.indices.items a.free.items a.nodes.items;
    } };
}

impl Ranks {
    /// Free cells of these indices, each with the score 0, or with no score.
    pub fn new(alloc: Global, indices: Vec<u8>, scored: bool) -> Result<Ranks, AllocError>
        requires { length indices.items < 2 ^ 32 }
        ensures { IfOk result (λ r. r ≡ ranked indices.items
            (replicate (length indices.items) true)
            (if scored then replicate (length indices.items) 0 else [])) }
    {
        let many = indices.len();
        let starts = starts(alloc, &indices)?;
        let places = places(alloc, &indices, &starts)?;
        let free = closed(alloc, many)?;
        let scores = zeros(alloc, if scored { many } else { 0 })?;
        let nodes = blanks(alloc, 2 * many)?;
        are_bytes(&indices);
        let mut ranks = Ranks {
            indices,
            free,
            scores,
            places,
            starts,
            nodes,
        };
        ranks.open_all();
        Ok(ranks)
    }

    // Opens all cells.
    fn open_all(&mut self)
        ensures { self.new ≡ ranked self.old.indices
            (replicate (length self.old.indices) true) self.old.scores }
    {
        for cell in 0..self.indices.len() as u32 {
            self.open(cell);
        }
    }

    /// The first of the free cells of which the index is at most this, or the least of free cells.
    pub fn first(&self, to: u8) -> Option<u32>
        ensures { MatchOption result ((k : ℕ) → IsFree self.now k → ⊥) (IsForemost self.now to) }
    {
        let places = self.indices.len();
        for index in usize::from(to)..256 {
            let end = self.starts[index + 1] as usize;
            if let Some(cell) = first_of(&self.nodes, &self.scores, places, end) {
                return Some(cell);
            }
        }
        None
    }

    /// Each index is a byte.
    pub fn indices_are_bytes(&self)
        ensures { (k : ℕ) → slice_index_or self.now.indices k 0 < 256 }
    {
        let _indices = &self.indices;
    }

    /// A cell is free no more.
    pub fn close(&mut self, cell: u32)
        requires { cell < length self.old.indices }
        ensures { self.new ≡ ranked self.old.indices (slice_set self.old.free cell false)
            self.old.scores }
    {
        let many = self.indices.len();
        let place = self.places[cell as usize] as usize;
        put(&mut self.nodes, &self.scores, many, place, None);
        self.free[cell as usize] = false;
    }

    /// A cell is free.
    pub fn open(&mut self, cell: u32)
        requires { cell < length self.old.indices }
        ensures { self.new ≡ ranked self.old.indices (slice_set self.old.free cell true)
            self.old.scores }
    {
        let many = self.indices.len();
        let place = self.places[cell as usize] as usize;
        put(&mut self.nodes, &self.scores, many, place, Some(cell));
        self.free[cell as usize] = true;
    }

    /// Gives a cell another score.
    pub fn set_score(&mut self, cell: u32, score: usize)
        requires cell { cell < length self.old.indices }
        requires scored { cell < length self.old.scores }
        ensures { self.new ≡ ranked self.old.indices self.old.free
            (slice_set self.old.scores cell score) }
    {
        if self.free[cell as usize] {
            self.close(cell);
            self.set_score_closed(cell, score);
            self.open(cell);
        } else {
            self.set_score_closed(cell, score);
        }
    }

    // The same of one that isn't free.
    fn set_score_closed(&mut self, cell: u32, score: usize)
        requires scored { cell < length self.old.scores }
        requires closed { IsFree self.old cell → ⊥ }
        ensures { self.new ≡ ranked self.old.indices self.old.free
            (slice_set self.old.scores cell score) }
    {
        self.scores[cell as usize] = score;
    }

    /// The score of a cell.
    pub fn score(&self, cell: u32) -> usize
        requires { cell < length self.now.scores }
        ensures { result ≡ slice_index_or self.now.scores cell 0 }
    {
        self.scores[cell as usize]
    }
}

// So many cells that aren't free.
fn closed(alloc: Global, many: usize) -> Result<Vec<bool>, AllocError>
    ensures { IfOk result (λ v. v.items ≡ replicate many false) }
{
    let closed = vec![in alloc; false; many]?;
    Ok(closed)
}

// So many zeros.
fn zeros(alloc: Global, many: usize) -> Result<Vec<usize>, AllocError>
    ensures { IfOk result (λ v. v.items ≡ replicate many 0) }
{
    let zeros = vec![in alloc; 0; many]?;
    Ok(zeros)
}

// So many nodes at which nothing stands.
fn blanks(alloc: Global, many: usize) -> Result<Vec<Option<u32>>, AllocError>
    ensures { IfOk result (λ v. v.items ≡ replicate many None) }
{
    let blanks = vec![in alloc; None; many]?;
    Ok(blanks)
}

// Each index is a byte.
fn are_bytes(indices: &[u8])
    ensures { (k : ℕ) → slice_index_or indices.now k 0 < 256 }
{
    let _many = indices.len();
}
