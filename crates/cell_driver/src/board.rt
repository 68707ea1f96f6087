// What a search asks of the board on which it decides the values of cells.
ghost use Rattle.std.specs.Prelude.{ℕ, ◌≡◌, ◌<◌, List, ◌∷◌, Some, length, max};
ghost use Rattle.fol_core.specs.Meaning.{Meaning};
ghost use Rattle.cell_driver.specs.Boards.{HasNext, IsAsSaid, StandsAs};
ghost use Rattle.mace_cells.specs.Choices.{Decision, IsLatest};
ghost use Rattle.mace_cells.specs.Numbers.{greatest_tried};
ghost use Rattle.mace_cells.specs.Stacked.{rest_of};
ghost use Rattle.mace_cells.specs.World.{World, cell_of, many_cells, IsBound, IsNextValue};

/// How far the decisions lead: a cell is to be chosen, all cells have values and the clauses are true, or the clauses
/// contradict the decisions.
#[derive(Clone, Copy)]
pub enum Status {
    Choose(u32),
    Settled,
    Refuted,
}

/// A board on which values of cells are decided, one after the other, and taken back in turn.
pub trait Board {
    ghost world: { Self → World };

    ghost decided: { Self → List Decision };

    ghost found: { Self → Meaning };

    // the table is that of the plain search behind the decisions
    ghost is_closed: { Self → Type 0 };

    ghost is_open: { Self → ℕ → Type 0 };

    ghost is_full: { Self → Type 0 };

    // whether a cell has a value left
    ghost is_left: { Self → ℕ → ℕ → Type 0 };

    fn status(&mut self) -> Status
        ensures world { world self.new ≡ world self.old }
        ensures decided { decided self.new ≡ decided self.old }
        ensures told { IsAsSaid (world self.old) (decided self.old) (found self.new) result }
        ensures stands { StandsAs (world self.old) (decided self.old) result }
        ensures closed { (cell : ℕ) → result ≡ Status.Choose cell → is_closed self.new }
        ensures open { (cell : ℕ) → result ≡ Status.Choose cell → is_open self.new cell }
        ensures full { result ≡ Status.Settled → is_full self.new };

    fn most(&self, cell: u32) -> u8
        requires { cell < many_cells (world self.now) }
        ensures bound { IsBound (world self.now) (decided self.now)
            (cell_of (world self.now) cell) result }
        ensures tried { result ≡ greatest_tried (world self.now) (decided self.now)
            (cell_of (world self.now) cell) }
        ensures fits { result < max (world self.now).size 2 };

    fn next_value(&self, cell: u32, from: u32, most: u8) -> Option<u8>
        requires cell { cell < many_cells (world self.now) }
        requires closed { is_closed self.now }
        requires open { is_open self.now cell }
        ensures first { HasNext (world self.now) (decided self.now)
            (cell_of (world self.now) cell) from most result }
        ensures next { IsNextValue (world self.now) (decided self.now)
            (cell_of (world self.now) cell) from most result }
        ensures left { (value : ℕ) → result ≡ Some value → is_left self.now cell value };

    fn decide(&mut self, cell: u32, value: u8)
        requires cell { cell < many_cells (world self.old) }
        requires room { length (decided self.old) < many_cells (world self.old) }
        requires open { is_open self.old cell }
        requires closed { is_closed self.old }
        requires left { is_left self.old cell value }
        ensures world { world self.new ≡ world self.old }
        ensures decided { decided self.new ≡ record
            { cell = cell_of (world self.old) cell; value = value } ∷ decided self.old };

    fn undo(&mut self)
        requires { 0 < length (decided self.old) }
        ensures world { world self.new ≡ world self.old }
        ensures decided { decided self.new ≡ rest_of (decided self.old) }
        ensures closed { is_closed self.new }
        ensures open { (cell : ℕ) → cell < many_cells (world self.old)
            → IsLatest (decided self.old) (cell_of (world self.old) cell)
            → is_open self.new cell };
}
