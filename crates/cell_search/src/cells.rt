// The board of a search: a partial table of its cells, closed under what the clauses ask.
ghost use Rattle.std.specs.Prelude.{ℕ, ◌≡◌, ◌<◌, ◌≤◌, ◌^◌, [], None, true, false, max, IfOk, length, replicate};
ghost use Rattle.cell_choice.specs.Shapes.{cell_shapes, ranking_of};
ghost use Rattle.cell_driver.specs.Boards.{IsAsSaid, StandsAs};
ghost use Rattle.cell_search.specs.Choosing.{IsPickedBehind};
ghost use Rattle.cell_search.specs.Covering.{AreWholeWays};
ghost use Rattle.cell_search.specs.Finites.{finite_of, meaning_by_cells, tables_over, AreLeafTables, AreTablesFor};
ghost use Rattle.cell_search.specs.Following.{left_after};
ghost use Rattle.cell_search.specs.Phases.{IsClosedTable, phase_after};
ghost use Rattle.cell_search.specs.Positions.{position, IsLeast};
ghost use Rattle.cell_search.specs.Scores.{is_ranked};
ghost use Rattle.cell_search.specs.Searchable.{HasAllCells};
ghost use Rattle.cell_search.specs.Losses.{decided_in};
ghost use Rattle.cell_search.specs.Ways.{AreGroups, HaveWalks};
ghost use Rattle.mace_cells.specs.Numbers.{above_used, greatest_tried};
ghost use Rattle.mace_cells.specs.Trails.{partial, value_in};
ghost use Rattle.mace_cells.specs.World.{cell_of, many_cells, IsBound};
ghost use Rattle.plain_search.specs.Coming.{closed_behind};

use crate::going::close_waiting;
use crate::scores::{is_ranked, score};
use crate::setup::Setup;
use crate::tables::finite;
use crate::walk::{Group, Walk};
use crate::walks::room;
use cell_choice::{CellShape, above_decision, greatest_tried, highest, indices, limit, pick};
use cell_driver::{Board, Status};
use fol_core::Symbols;
use mace_cells::{CellMeasure, Stack, Trail};
use model_tables::Tables;
use std::alloc::{AllocError, Global};
use std::marker::Model;

// Whether a table waits to be closed, is closed, or closing it met a contradiction.
#[derive(Clone, Copy)]
enum Phase {
    Waiting,
    Closed,
    Failed,
}

// What a table is after closing.
fn phase_after(closed: bool) -> Phase
    ensures { result ≡ phase_after closed }
{
    if closed { Phase::Closed } else { Phase::Failed }
}

/// A board of cells; contracts see what is searched for, and the table so far.
#[derive(Drop)]
pub struct Cells<'a> {
    setup: Setup<'a>,
    // What the choice looks at, by cell.
    shapes: Vec<CellShape>,
    trail: Trail,
    // For each decision the least number above those in use with it.
    uses: Stack<u32>,
    walks: Vec<Walk<'a>>,
    groups: Vec<Group<'a>>,
    // The elements of variables.
    env: Vec<u32>,
    // What the choice prefers cells by, where this is worked out anew for each choice.
    scores: Vec<u64>,
    // For how many steps all instances were gone over, and whether they were at the beginning.
    head: usize,
    begun: bool,
    phase: Phase,
}

impl<'a> Model for Cells<'a> {
    ghost use Rattle.std.specs.Prelude.{◌≡◌, ◌≤◌, false, length};
    ghost use Rattle.cell_choice.specs.Numbers.{uses_by};
    ghost use Rattle.cell_choice.specs.Shapes.{cell_shapes};
    ghost use Rattle.cell_search.specs.Phases.{IsInPhase, IsReady, WasClosed};
    ghost use Rattle.cell_search.specs.Positions.{BoardPosition};
    ghost use Rattle.cell_search.specs.Scores.{is_ranked};
    ghost use Rattle.cell_search.specs.SearchCodes.{coded_position};
    ghost use Rattle.cell_search.specs.Searchable.{HasAllCells};
    ghost use Rattle.cell_search.specs.Losses.{IsBoard, decided_in};
    ghost use Rattle.mace_cells.specs.World.{many_cells};
    ghost use Rattle.model_tables.specs.Size.{AllBelow};
    ghost use Rattle.plain_search.specs.Meeting.{WereLeft};

    ghost Value = { BoardPosition };

    ghost coded = { coded_position };

    ghost view = { λ a. record { world = a.setup; table = a.trail } };

    ghost invariant = { λ a. record {
      board : IsBoard a.setup a.trail;
      searchable : HasAllCells a.setup;
      ready : IsReady a.setup a.walks.items a.groups.items (length a.env.items);
      env : AllBelow a.setup.size a.env.items;
      scores : is_ranked a.setup.way.measure ≡ false
          → length a.scores.items ≡ many_cells a.setup;
      shapes : a.shapes.items ≡ cell_shapes a.setup.size a.setup.blocks;
      uses : a.uses.list ≡ uses_by a.setup.fixed (decided_in a.setup a.trail.entries);
      stack : a.uses.room ≡ many_cells a.setup;
      small : a.setup.size ≤ 255;
      was : WasClosed a.setup a.trail.stride a.trail.entries a.trail.crossings;
      were : WereLeft a.setup (decided_in a.setup a.trail.entries);
      phase : IsInPhase a.setup a.trail a.begun a.head a.phase;
    } };
}

impl<'a> Cells<'a> {
    /// A board on which nothing is decided yet, with ways through all instances of the clauses, and through those of each
    /// symbol's occurrences.
    pub fn new(
        alloc: Global,
        setup: Setup<'a>,
        shapes: Vec<CellShape>,
        walks: Vec<Walk<'a>>,
        groups: Vec<Group<'a>>,
    ) -> Result<Cells<'a>, AllocError>
        requires searchable { HasAllCells setup }
        requires small { setup.size ≤ 255 }
        requires shapes { shapes.items ≡ cell_shapes setup.size setup.blocks }
        requires whole { AreWholeWays setup walks.items }
        requires each { length walks.items ≡ length setup.clauses }
        requires groups { AreGroups setup groups.items }
        requires walks { HaveWalks setup groups.items (length setup.clauses) }
        ensures { IfOk result (λ b. b ≡ position setup.entry
            (partial (many_cells setup.entry) (max setup.entry.size 2)
            (ranking_of setup.entry) [] [])) }
    {
        let cells = setup.cells() as usize;
        let indices = indices(alloc, &shapes)?;
        let counts = setup.way().measure.counts_crossed();
        let trail = Trail::new(alloc, setup.size().max(2), indices, counts)?;
        let uses = Stack::new(alloc, cells)?;
        let room = room(&setup)?;
        let env = zeros(alloc, room)?;
        let scores = scores(alloc, setup.way().measure, cells)?;
        Ok(Cells {
            setup,
            shapes,
            trail,
            uses,
            walks,
            groups,
            env,
            scores,
            head: 0,
            begun: false,
            phase: Phase::Waiting,
        })
    }

    /// The tables of the values that cells have, 0 where they have none, for the symbols of a table.
    pub fn tables(&self, alloc: Global, symbols: &Symbols) -> Result<Tables, AllocError>
        ensures { IfOk result (λ t. t
            ≡ tables_over symbols.now (finite_of self.now.world self.now.table.entries)) }
    {
        finite(alloc, &self.setup, &self.trail, symbols)
    }

    // The least number above those in use.
    fn in_use(&self) -> u32
        ensures { result ≡ above_used self.now.world.fixed
            (decided_in self.now.world self.now.table.entries) }
    {
        match self.uses.top() {
            Some(used) => used,
            None => self.setup.fixed() as u32,
        }
    }

    // Up to which value a cell is tried.
    fn tried_to(&self, cell: u32) -> u8
        requires { cell < many_cells self.now.world }
        ensures tried { result ≡ greatest_tried self.now.world
            (decided_in self.now.world self.now.table.entries) (cell_of self.now.world cell) }
        ensures bound { IsBound self.now.world
            (decided_in self.now.world self.now.table.entries)
            (cell_of self.now.world cell) result }
        ensures fits { result < max self.now.world.size 2 }
    {
        let bound = self.setup.bound(cell);
        let shape = self.shapes[cell as usize];
        let least_numbers = self.setup.way().least_numbers;
        greatest_tried(
            least_numbers,
            self.setup.size(),
            bound,
            self.in_use(),
            shape,
        ) as u8
    }

    // Closes the table where that wasn't done; false where the clauses contradict what was decided.
    fn close(&mut self) -> bool
        ensures world { self.new.world ≡ self.old.world }
        ensures decided { decided_in self.old.world self.new.table.entries
            ≡ decided_in self.old.world self.old.table.entries }
        ensures behind { closed_behind self.old.world
            (decided_in self.old.world self.old.table.entries)
            ≡ left_after self.old.world result self.new.table }
        ensures closed { result ≡ true → IsClosedTable self.new.world self.new.table }
    {
        match self.phase {
            Phase::Closed => true,
            Phase::Failed => false,
            Phase::Waiting => {
                let closed = close_waiting(
                    &self.setup,
                    &mut self.trail,
                    &self.walks,
                    &self.groups,
                    &mut self.env,
                    self.begun,
                    self.head,
                );
                self.phase = phase_after(closed);
                closed
            }
        }
    }

    // The cell that the plain search chooses in a closed table; nothing where each has a value.
    fn picked(&mut self) -> Option<u32>
        requires { IsClosedTable self.old.world self.old.table }
        ensures same { self.new ≡ self.old }
        ensures picked { IsPickedBehind self.old.world self.old.table
            (decided_in self.old.world self.old.table.entries) result }
    {
        let way = self.setup.way();
        let used = self.in_use();
        if is_ranked(way.measure) {
            return pick(&self.trail, way.candidates, used);
        }
        let limit = limit(&self.trail, &self.shapes, way.candidates, used)?;
        score(
            &self.setup,
            &mut self.trail,
            &self.shapes,
            &self.groups,
            &mut self.env,
            limit,
            &mut self.scores,
        );
        highest(&self.trail, &self.shapes, limit, &self.scores)
    }

    // The cell that is to be chosen in a closed table, the plain search choosing this one; or each has a value, and the clauses are
    // true.
    fn chosen(&self, picked: Option<u32>) -> Status
        requires closed { IsClosedTable self.now.world self.now.table }
        requires picked { IsPickedBehind self.now.world self.now.table
            (decided_in self.now.world self.now.table.entries) picked }
        ensures told { IsAsSaid self.now.world (decided_in self.now.world self.now.table.entries)
            (meaning_by_cells self.now.world self.now.table.entries) result }
        ensures stands { StandsAs self.now.world
            (decided_in self.now.world self.now.table.entries) result }
        ensures open { (cell : ℕ) → result ≡ Status.Choose cell
            → value_in self.now.table.entries cell ≡ None }
        ensures full { result ≡ Status.Settled
            → AreTablesFor self.now.world (finite_of self.now.world self.now.table.entries) }
        ensures leaf { AreLeafTables self.now.world
            (decided_in self.now.world self.now.table.entries)
            (finite_of self.now.world self.now.table.entries) }
    {
        match picked {
            Some(cell) => {
                let _value = self.trail.value(cell);
                Status::Choose(cell)
            }
            None => Status::Settled,
        }
    }
}

// Room for the scores of so many cells, where they are worked out.
fn scores(alloc: Global, measure: CellMeasure, many: usize) -> Result<Vec<u64>, AllocError>
    ensures { IfOk result (λ v. is_ranked measure ≡ false → length v.items ≡ many) }
{
    let mut scores = Vec::new(alloc);
    if !is_ranked(measure) {
        scores.resize(many, 0)?;
    }
    Ok(scores)
}

// So many zeros.
fn zeros(alloc: Global, many: usize) -> Result<Vec<u32>, AllocError>
    ensures { IfOk result (λ v. v.items ≡ replicate many 0) }
{
    let zeros = vec![in alloc; 0; many]?;
    Ok(zeros)
}

// The least value of a cell, from one on, up to the greatest and below `end`, that isn't crossed off.
fn least(trail: &Trail, cell: u32, from: u32, most: u8, end: u32) -> Option<u8>
    requires cell { cell < trail.now.many }
    requires end { end ≤ trail.now.stride }
    requires byte { end < 2 ^ 8 }
    ensures { IsLeast trail.now cell from most end result }
{
    for value in from..(u32::from(most) + 1).min(end) {
        let value = value as u8;
        if !trail.is_crossed(cell, value) {
            return Some(value);
        }
    }
    None
}

impl<'a> Board for Cells<'a> {
    ghost use Rattle.cell_search.specs.Finites.{finite_of, meaning_by_cells, AreLeafTables, AreTablesFor};
    ghost use Rattle.cell_search.specs.Losses.{decided_in};
    ghost use Rattle.cell_search.specs.Phases.{IsClosedTable};
    ghost use Rattle.cell_search.specs.Viewing.{left_in};
    ghost use Rattle.mace_cells.specs.Trails.{value_in};
    ghost use Rattle.mace_cells.specs.World.{cell_of};
    ghost use Rattle.plain_search.specs.Lefts.{IsAmong};
    ghost use Rattle.std.specs.Prelude.{◌≡◌, None};

    ghost world = { λ b. b.world };

    ghost decided = { λ b. decided_in b.world b.table.entries };

    ghost found = { λ b. meaning_by_cells b.world b.table.entries };

    ghost is_closed = { λ b. IsClosedTable b.world b.table };

    ghost is_open = { λ b k. value_in b.table.entries k ≡ None };

    ghost is_full = { λ b. AreTablesFor b.world (finite_of b.world b.table.entries)
        × AreLeafTables b.world (decided_in b.world b.table.entries)
        (finite_of b.world b.table.entries) };

    ghost is_left = { λ b k v. IsAmong v (left_in b.world b.table (cell_of b.world k)) };

    fn status(&mut self) -> Status {
        if self.close() {
            let picked = self.picked();
            self.chosen(picked)
        } else {
            Status::Refuted
        }
    }

    fn most(&self, cell: u32) -> u8 {
        self.tried_to(cell)
    }

    fn next_value(&self, cell: u32, from: u32, most: u8) -> Option<u8> {
        least(&self.trail, cell, from, most, self.setup.bound(cell))
    }

    fn decide(&mut self, cell: u32, value: u8) {
        let shape = self.shapes[cell as usize];
        let used = above_decision(self.in_use(), shape, value);
        self.uses.push(used);
        self.begun = true;
        self.head = self.trail.len();
        self.phase = Phase::Waiting;
        self.trail.assign(cell, value, true);
    }

    fn undo(&mut self) {
        self.trail.undo();
        self.uses.pop();
        self.phase = Phase::Closed;
    }
}
