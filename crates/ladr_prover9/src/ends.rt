// How a search for proofs ends.
ghost use Rattle.std.specs.Prelude.{◌≡◌};
ghost use Rattle.ladr_prover9.specs.Statuses.{prover_status};

/// Why a search ended.
#[derive(Clone, Copy)]
pub enum ProverEnd {
    /// As many proofs as were wanted are found.
    MaxProofs,
    /// No clause waits to be given.
    SosEmpty,
    /// As many symbols and variables are kept as are allowed.
    MaxMegs,
    /// The time is over, by the clock's first reading and its last.
    MaxSeconds { first: u64, last: u64 },
    /// As many clauses are given as are allowed.
    MaxGiven,
    /// As many clauses are kept as are allowed.
    MaxKept,
    /// A formula has too many clauses; formulas are counted from 1.
    ClauseLimit { formula: u64 },
}

/// How a search ended, how many clauses were given and kept, how many proofs were found, and how many lines and levels the first
/// of them has: all are 0 where nothing was searched, the last two also where there is no proof.
#[derive(Clone, Copy)]
pub struct ProverOver {
    pub end: ProverEnd,
    pub given: u64,
    pub kept: u64,
    pub proofs: u64,
    pub length: u64,
    pub level: u64,
}

impl ProverEnd {
    /// The exit status of a search that ended so.
    pub fn status(&self) -> u8
        ensures { result ≡ prover_status self.now }
    {
        match self {
            ProverEnd::MaxProofs => 0,
            ProverEnd::SosEmpty => 2,
            ProverEnd::MaxMegs => 3,
            ProverEnd::MaxSeconds { .. } => 4,
            ProverEnd::MaxGiven => 5,
            ProverEnd::MaxKept => 6,
            ProverEnd::ClauseLimit { .. } => 13,
        }
    }
}
