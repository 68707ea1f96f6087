// How a search for models ends.
ghost use Rattle.std.specs.Prelude.{◌≡◌};
ghost use Rattle.ladr_mace4.specs.Statuses.{end_status};

/// Why a search ended.
#[derive(Clone, Copy)]
pub enum SearchEnd {
    /// As many models as were wanted are printed.
    MaxModels,
    /// Each size was skipped or is exhausted, and has no model.
    Exhausted,
    /// Each size was skipped or is exhausted, and there are models, but fewer than were wanted.
    AllModels,
    /// The cells and ground literals of a size are too many to search.
    MaxMegs,
    /// The time is over, by the clock's first reading and its last.
    MaxSeconds { first: u64, last: u64 },
    /// The cells and ground literals of a size are too many by far.
    GroundLimit { size: u64 },
    /// A formula has too many clauses; formulas are counted from 1.
    ClauseLimit { formula: u64 },
}

impl SearchEnd {
    /// The exit status of a search that ended so.
    pub fn status(&self) -> u8
        ensures { result ≡ end_status self.now }
    {
        match self {
            SearchEnd::MaxModels => 0,
            SearchEnd::Exhausted => 2,
            SearchEnd::MaxMegs => 3,
            SearchEnd::MaxSeconds { .. } => 4,
            SearchEnd::AllModels => 8,
            SearchEnd::GroundLimit { .. } => 13,
            SearchEnd::ClauseLimit { .. } => 13,
        }
    }
}

/// How a search ended, and how many models were printed by then.
#[derive(Clone, Copy)]
pub struct SearchOver {
    pub end: SearchEnd,
    pub printed: u64,
}

/// How a size went: it is over, or the search ended in it; with how many models are printed by
/// then.
#[derive(Clone, Copy)]
pub enum Step {
    Over(u64),
    Ends(SearchEnd, u64),
}
