// The values that cells have and that are crossed off, and the steps by which they came.
ghost use Rattle.std.specs.Prelude.{ℕ, ◌≡◌, ◌+◌, ◌*◌, ◌^◌, ◌<◌, ◌≤◌, false, [], ◌∷◌, None, IfOk, IfNone, MatchOption, length, replicate};
ghost use Rattle.cell_ranks.specs.Ranks.{Ranked, IsFree, IsForemost};
ghost use Rattle.mace_cells.specs.Made.{IsMade};
ghost use Rattle.mace_cells.specs.Stacked.{stacked, IsItemAt};
ghost use Rattle.mace_cells.specs.Trails.{partial, value_in, is_struck_off, undone, cells_written, struck, before_decision, latest_mark, earliest, counted_up, lowered, CanRaise, CanLower, IsRankedBy, AreFlagged, AreScored};

use crate::stack::Stack;
use cell_ranks::Ranks;
use std::alloc::{AllocError, Global};
use std::marker::Model;

/// A cell with its value; whether it was decided, and how many values had been crossed off before.
#[derive(Clone, Copy, Drop)]
pub struct TrailEntry {
    pub cell: u32,
    pub value: u8,
    pub decided: bool,
    pub mark: usize,
}

/// A partial table with the steps that made it. All its room is there from the start. Contracts see the steps.
#[derive(Drop)]
pub struct Trail {
    stride: usize,
    counts: bool,
    // By cell.
    values: Vec<Option<u8>>,
    // By cell and value.
    crossed: Vec<bool>,
    entries: Stack<TrailEntry>,
    crossings: Stack<usize>,
    // The cells without a value, and where it is counted how many values are crossed off each.
    ranks: Ranks,
}

impl Model for Trail {
    ghost use Rattle.std.specs.Prelude.{◌≡◌, ◌*◌, ◌^◌, ◌<◌, length, None, false};
    ghost use Rattle.mace_cells.specs.Made.{IsMade};
    ghost use Rattle.mace_cells.specs.Trails.{Partial, partial, cells_written, struck, AreFlagged, AreScored};

    ghost Value = { Partial };

    ghost view = { λ a. partial (length a.values.items) a.stride
        (record { indices = a.ranks.indices; counts = a.counts }) a.entries.list a.crossings.list };

    ghost invariant = { λ a. record {
      small : length a.values.items < 2 ^ 32;
      flags : length a.crossed.items ≡ length a.values.items * a.stride;
      room : a.entries.room ≡ length a.values.items;
      more : a.crossings.room ≡ length a.values.items * a.stride;
      values : IsMade None (length a.values.items) (cells_written a.entries.list) a.values.items;
      crossed : IsMade false (length a.values.items * a.stride)
          (struck a.crossings.list) a.crossed.items;
      ranked : length a.ranks.indices ≡ length a.values.items;
      free : AreFlagged a.values.items a.ranks.free;
      scored : AreScored a.counts a.stride a.crossings.list (length a.values.items)
          a.ranks.scores;
    } };
}

impl Trail {
    /// A table of cells with these indices, none of which has a value, of values below `stride`; whether it counts how many of them
    /// are crossed off each cell.
    pub fn new(
        alloc: Global,
        stride: u32,
        indices: Vec<u8>,
        counts: bool,
    ) -> Result<Trail, AllocError>
        requires { length indices.items < 2 ^ 32 }
        ensures { IfOk result (λ t. t ≡ partial (length indices.items) stride
            (record { indices = indices.items; counts = counts }) [] []) }
    {
        let many = indices.len();
        let stride = stride as usize;
        let values = no_values(alloc, many)?;
        let crossed = no_flags(alloc, many * stride)?;
        let ranks = Ranks::new(alloc, indices, counts)?;
        let entries = Stack::new(alloc, many)?;
        let crossings = Stack::new(alloc, many * stride)?;
        Ok(Trail {
            stride,
            counts,
            values,
            crossed,
            entries,
            crossings,
            ranks,
        })
    }

    /// How many cells there are.
    pub fn cells(&self) -> u32
        ensures { result ≡ self.now.many }
    {
        self.values.len() as u32
    }

    /// The value that a cell has.
    pub fn value(&self, cell: u32) -> Option<u8>
        requires { cell < self.now.many }
        ensures value { result ≡ value_in self.now.entries cell }
        // A cell without a value is not among those that have one.
        ensures few { IfNone result (length self.now.entries < self.now.many) }
    {
        self.values[cell as usize]
    }

    /// What values are below.
    pub fn stride(&self) -> usize
        ensures { result ≡ self.now.stride }
    {
        self.stride
    }

    /// The cell that got a value in this step, the first being 0.
    pub fn cell_at(&self, step: usize) -> u32
        requires { step < length self.now.entries }
        ensures within { result < self.now.many }
        ensures entry { (e : TrailEntry) × IsItemAt self.now.entries step e × (result ≡ e.cell) }
    {
        self.entries.get(step).cell
    }

    /// Whether a value is crossed off a cell.
    pub fn is_crossed(&self, cell: u32, value: u8) -> bool
        requires cell { cell < self.now.many }
        requires value { value < self.now.stride }
        ensures { result ≡ is_struck_off (cell * self.now.stride + value) self.now.crossings }
    {
        let at = place(cell, value, self.stride, self.crossed.len());
        self.crossed[at]
    }

    /// The first of the cells without a value, of those of which the index is at most this, or the least.
    pub fn first(&self, to: u8) -> Option<u32>
        ensures { (r : Ranked) × (IsRankedBy self.now r
            × MatchOption result ((k : ℕ) → IsFree r k → ⊥) (IsForemost r to)) }
    {
        let _values = &self.values;
        self.ranks.indices_are_bytes();
        self.ranks.first(to)
    }

    /// Gives a cell a value.
    pub fn assign(&mut self, cell: u32, value: u8, decided: bool)
        requires cell { cell < self.old.many }
        requires blank { value_in self.old.entries cell ≡ None }
        ensures { self.new ≡ partial self.old.many self.old.stride self.old.ranking
            (record {
              cell = cell;
              value = value;
              decided = decided;
              mark = length
                  self.old.crossings;
            } ∷ self.old.entries) self.old.crossings }
    {
        let mark = self.crossings.len();
        let entry = TrailEntry {
            cell,
            value,
            decided,
            mark,
        };
        self.values[cell as usize] = Some(value);
        self.ranks.close(cell);
        self.entries.push(entry);
    }

    /// Crosses a value off a cell.
    pub fn cross(&mut self, cell: u32, value: u8)
        requires cell { cell < self.old.many }
        requires value { value < self.old.stride }
        requires blank { is_struck_off (cell * self.old.stride + value) self.old.crossings ≡ false }
        ensures { self.new ≡ partial self.old.many self.old.stride self.old.ranking
            self.old.entries
            ((cell * self.old.stride + value) ∷ self.old.crossings) }
    {
        let at = place(cell, value, self.stride, self.crossed.len());
        self.crossed[at] = true;
        raise(&mut self.ranks, self.counts, cell);
        self.crossings.push(at);
    }

    /// How many cells have values.
    pub fn len(&self) -> usize
        ensures len { result ≡ length self.now.entries }
        ensures few { length self.now.entries ≤ self.now.many }
    {
        let _values = &self.values;
        self.entries.len()
    }

    /// Takes the latest decision back, and what came after it.
    pub fn undo(&mut self)
        ensures { self.new ≡ undone self.old }
    {
        if let Some(mark) = take_back(&mut self.values, &mut self.ranks, &mut self.entries) {
            uncross(
                &mut self.crossed,
                &mut self.ranks,
                &mut self.crossings,
                self.counts,
                self.stride,
                mark,
            );
        }
    }
}

// The place of a value of a cell, in an array of this length.
fn place(cell: u32, value: u8, stride: usize, length: usize) -> usize
    requires { cell * stride + value < length }
    ensures { result ≡ cell * stride + value }
{
    let _end = length;
    cell as usize * stride + value as usize
}

// So many cells without a value.
fn no_values(alloc: Global, many: usize) -> Result<Vec<Option<u8>>, AllocError>
    ensures { IfOk result (λ v. v.items ≡ replicate many None) }
{
    let values = vec![in alloc; None; many]?;
    Ok(values)
}

// So many values that aren't crossed off.
fn no_flags(alloc: Global, many: usize) -> Result<Vec<bool>, AllocError>
    ensures { IfOk result (λ v. v.items ≡ replicate many false) }
{
    let flags = vec![in alloc; false; many]?;
    Ok(flags)
}

// One more value is crossed off a cell.
fn raise(ranks: &mut Ranks, counts: bool, cell: u32)
    requires cell { cell < length ranks.old.indices }
    requires room { CanRaise counts ranks.old cell }
    ensures { ranks.new ≡ counted_up counts ranks.old cell }
{
    if counts {
        let score = ranks.score(cell);
        ranks.set_score(cell, score + 1);
    }
}

// One value less is.
fn lower(ranks: &mut Ranks, counts: bool, cell: u32)
    requires cell { cell < length ranks.old.indices }
    requires some { CanLower counts ranks.old cell }
    ensures { ranks.new ≡ lowered counts ranks.old cell }
{
    if counts {
        let score = ranks.score(cell);
        ranks.set_score(cell, score - 1);
    }
}

// Takes values back as far as the latest decision, and tells how many had been crossed off before it.
fn take_back(
    values: &mut Vec<Option<u8>>,
    ranks: &mut Ranks,
    entries: &mut Stack<TrailEntry>,
) -> Option<usize>
    requires made { IsMade None (length values.old.items)
        (cells_written entries.old.list) values.old.items }
    requires ranked { length ranks.old.indices ≡ length values.old.items }
    requires free { AreFlagged values.old.items ranks.old.free }
    ensures made { IsMade None (length values.new.items)
        (cells_written entries.new.list) values.new.items }
    ensures length { length values.new.items ≡ length values.old.items }
    ensures indices { ranks.new.indices ≡ ranks.old.indices }
    ensures scores { ranks.new.scores ≡ ranks.old.scores }
    ensures free { AreFlagged values.new.items ranks.new.free }
    ensures entries { entries.new ≡ stacked entries.old.room (before_decision entries.old.list) }
    ensures mark { result ≡ latest_mark entries.old.list }
{
    while let Some(entry) = entries.top() {
        entries.pop();
        values[entry.cell as usize] = None;
        ranks.open(entry.cell);
        if entry.decided {
            return Some(entry.mark);
        }
    }
    None
}

// Takes back what was crossed off, all but the first so many.
fn uncross(
    crossed: &mut Vec<bool>,
    ranks: &mut Ranks,
    crossings: &mut Stack<usize>,
    counts: bool,
    stride: usize,
    mark: usize,
)
    requires flags { length crossed.old.items ≡ length ranks.old.indices * stride }
    requires few { length ranks.old.indices < 2 ^ 32 }
    requires made { IsMade false (length crossed.old.items)
        (struck crossings.old.list) crossed.old.items }
    requires scored { AreScored counts stride crossings.old.list (length ranks.old.indices)
        ranks.old.scores }
    ensures made { IsMade false (length crossed.new.items)
        (struck crossings.new.list) crossed.new.items }
    ensures scored { AreScored counts stride crossings.new.list (length ranks.new.indices)
        ranks.new.scores }
    ensures length { length crossed.new.items ≡ length crossed.old.items }
    ensures indices { ranks.new.indices ≡ ranks.old.indices }
    ensures free { ranks.new.free ≡ ranks.old.free }
    ensures crossings { crossings.new ≡ stacked crossings.old.room
        (earliest mark crossings.old.list) }
{
    while let Some(at) = crossings.top() {
        if crossings.len() <= mark {
            return;
        }
        crossings.pop();
        crossed[at] = false;
        lower(ranks, counts, (at / stride) as u32);
    }
}
