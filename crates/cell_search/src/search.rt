// The search for the models of a size, cell by cell.
ghost use Rattle.std.specs.Prelude.{◌≡◌, ℕ, ◌≤◌, [], true, false, None, Some, IfOk};
ghost use Rattle.cell_driver.specs.Comings.{ComesInTime};
ghost use Rattle.cell_search.specs.Courses.{world_of, above_numeral, beginning, IsSameCourse, AnswersByCells, follows_after};
ghost use Rattle.cell_search.specs.Finites.{tables_over, AreLeafTables};
ghost use Rattle.cell_search.specs.Searchable.{HasAllCells};
ghost use Rattle.mace_cells.specs.Choices.{decisions};
ghost use Rattle.mace_ground.specs.Count.{ground_count};
ghost use Rattle.ladr_io.specs.Watch.{IsEarly};
ghost use Rattle.mace_search.specs.declared.answer.SearchAnswer.TheVariants.{Exhausted, MaxSeconds, Model};
ghost use Rattle.model_tables.specs.declared.limits.TheConstants.{MOST_CELLS};

use crate::cells::Cells;
use crate::setup::Setup;
use crate::walks::{groups, walks};
use cell_choice::shapes;
use cell_driver::next_model;
use fol_core::{Clauses, Symbols};
use ladr_io::Clock;
use mace_cells::{Frame, Stack, Way};
use mace_ground::Ground;
use mace_search::SearchAnswer;
use model_tables::Tables;
use std::alloc::{AllocError, Global};
use std::marker::Model;

// The decisions are being followed; a model was found; nothing is left; or the time is over.
#[derive(Clone, Copy)]
enum State {
    Following,
    Found,
    Exhausted,
    Late(u64),
}

// The state after an answer, so many choices standing.
fn follows_after(answer: SearchAnswer, choices: usize) -> State
    ensures { result ≡ follows_after answer choices }
{
    match answer {
        SearchAnswer::Model if choices == 0 => State::Exhausted,
        SearchAnswer::Model => State::Found,
        SearchAnswer::Exhausted => State::Exhausted,
        SearchAnswer::MaxSeconds(last) => State::Late(last),
    }
}

// The least number above a problem's numerals.
fn above_numeral(numeral: Option<u32>) -> u64
    ensures { result ≡ above_numeral numeral }
{
    match numeral {
        None => 0,
        Some(k) => u64::from(k) + 1,
    }
}

/// A search for the models of a size; contracts see its course.
#[derive(Drop)]
pub struct CellSearch<'a> {
    cells: Cells<'a>,
    frames: Stack<Frame>,
    stop: Option<u128>,
    state: State,
}

impl<'a> Model for CellSearch<'a> {
    ghost use Rattle.cell_search.specs.Courses.{Course, live_in, late_in, IsStateOf};
    ghost use Rattle.cell_search.specs.Finites.{finite_of};
    ghost use Rattle.cell_search.specs.SearchCodes.{coded_course};
    ghost use Rattle.cell_search.specs.Losses.{decided_in};
    ghost use Rattle.mace_cells.specs.Leaves.{choices_of};
    ghost use Rattle.mace_cells.specs.Standing.{IsStanding};

    ghost Value = { Course };

    ghost coded = { coded_course };

    ghost view = { λ a. record {
      world = a.cells.world;
      live = live_in a.state;
      choices = choices_of a.cells.world a.frames.list;
      table = a.cells.table;
      tables = finite_of a.cells.world a.cells.table.entries;
      stop = a.stop;
      late = late_in a.state;
    } };

    ghost invariant = { λ a. record {
      standing : IsStanding a.cells.world (decided_in a.cells.world a.cells.table.entries) a.frames;
      state : IsStateOf a.state a.frames.list;
    } };
}

impl<'a> CellSearch<'a> {
    /// A search for models of `size` elements, at most 255, which chooses cells in this way and stops at a reading of the clock from `stop` on. All tables are
    /// ahead. It takes all the memory that it will need.
    pub fn new(
        alloc: Global,
        clauses: &'a Clauses,
        symbols: &Symbols,
        size: u32,
        way: Way,
        stop: Option<u128>,
    ) -> Result<CellSearch<'a>, AllocError>
        requires size { size ≤ 255 }
        requires count { ground_count size symbols.now clauses.now ≤ MOST_CELLS }
        requires searchable { HasAllCells (world_of symbols.now clauses.now size way) }
        ensures { IfOk result (λ s. s
            ≡ beginning (world_of symbols.now clauses.now size way) stop) }
    {
        let ground = Ground::build(alloc, clauses, symbols, size)?;
        let shapes = shapes(alloc, &ground)?;
        let setup = Setup::new(alloc, ground, above_numeral(clauses.numeral), way)?;
        let frames = Stack::new(alloc, setup.cells() as usize)?;
        let groups = groups(alloc, &setup, &clauses.clauses)?;
        let walks = walks(alloc, &clauses.clauses)?;
        let cells = Cells::new(alloc, setup, shapes, walks, groups)?;
        Ok(CellSearch {
            cells,
            frames,
            stop,
            state: State::Following,
        })
    }

    /// The model, where the last answer was that there is one, for the symbols of a table.
    pub fn tables(&self, alloc: Global, symbols: &Symbols) -> Result<Tables, AllocError>
        ensures { IfOk result (λ t. t ≡ tables_over symbols.now self.now.tables) }
    {
        self.cells.tables(alloc, symbols)
    }

    /// Goes on to the next model. It takes no memory.
    pub fn next_model<C: Clock>(&mut self, clock: &mut C) -> SearchAnswer
        requires { self.old.late ≡ None → IsEarly self.old.stop (C.times clock.old) }
        ensures same { IsSameCourse self.old self.new }
        // Of what the plain search still has to do so many choices are passed over: up to a leaf, which is the model; up to its end;
        // or to one more choice. The clock was read once for each.
        ensures comes { self.old.late ≡ None
            → ComesInTime self.old.world self.old.stop self.old.live self.old.choices result
            self.new.choices (C.times clock.old) (C.times clock.new) }
        ensures leaf { self.old.late ≡ None → result ≡ Model
            → AreLeafTables self.new.world (decisions self.new.choices) self.new.tables }
        ensures gives { self.old.late ≡ None
            → AnswersByCells self.old self.new result (C.times clock.new) }
        // An answer that ends the search comes again, with no reading.
        ensures over { self.old.late ≡ None → self.old.live ≡ false → self.old.choices ≡ []
            → (result ≡ Exhausted) × (self.new ≡ self.old) × (C.times clock.new
            ≡ C.times clock.old) }
        ensures again { (last : ℕ) → self.old.late ≡ Some last → (result ≡ MaxSeconds last)
            × (self.new ≡ self.old) × (C.times clock.new ≡ C.times clock.old) }
    {
        match self.state {
            State::Following => self.go(true, clock),
            State::Found => self.go(false, clock),
            State::Exhausted => SearchAnswer::Exhausted,
            State::Late(last) => SearchAnswer::MaxSeconds(last),
        }
    }

    // Goes on where more may be ahead.
    fn go<C: Clock>(&mut self, live: bool, clock: &mut C) -> SearchAnswer
        requires live { self.old.live ≡ live }
        requires late { self.old.late ≡ None }
        requires early { IsEarly self.old.stop (C.times clock.old) }
        ensures same { IsSameCourse self.old self.new }
        ensures comes { ComesInTime self.old.world self.old.stop self.old.live self.old.choices
            result self.new.choices (C.times clock.old) (C.times clock.new) }
        ensures leaf { result ≡ Model
            → AreLeafTables self.new.world (decisions self.new.choices) self.new.tables }
        ensures gives { AnswersByCells self.old self.new result (C.times clock.new) }
    {
        let answer = next_model(&mut self.cells, &mut self.frames, live, self.stop, clock);
        self.state = follows_after(answer, self.frames.len());
        answer
    }
}
