// How a search goes about its choices.
ghost use Rattle.std.specs.Prelude.{◌≡◌};
ghost use Rattle.mace_cells.specs.Trails.{counts_crossed};

/// Which of the cells without a value may be chosen: all, those of least index, or those of which the index is in use.
#[derive(Clone, Copy)]
pub enum Candidates {
    All,
    LeastIndex,
    InUse,
}

/// Which of these is chosen: the first; the first that stands in the most ground clauses that aren't known to be true; of which the
/// values that are left give the most other cells a value, or the most of them contradict the clauses; or the first with the most
/// values crossed off.
#[derive(Clone, Copy)]
pub enum CellMeasure {
    First,
    MostOccurrences,
    MostAssigned,
    MostContradicted,
    MostCrossed,
}

impl CellMeasure {
    /// Whether it counts how many values are crossed off a cell.
    pub fn counts_crossed(self) -> bool
        ensures { result ≡ counts_crossed self }
    {
        match self {
            CellMeasure::MostCrossed => true,
            CellMeasure::First
            | CellMeasure::MostOccurrences
            | CellMeasure::MostAssigned
            | CellMeasure::MostContradicted => false,
        }
    }
}

/// How a search chooses a cell, and whether it tries the values of functions by the least-number heuristic.
#[derive(Clone, Copy)]
pub struct Way {
    pub candidates: Candidates,
    pub measure: CellMeasure,
    pub least_numbers: bool,
}
