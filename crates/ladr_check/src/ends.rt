// How a check of proofs ends.
ghost use Rattle.std.specs.Prelude.{◌≡◌};
ghost use Rattle.ladr_check.specs.Outcomes.{check_status};

use derivation::Row;

/// How a check ended that was not cut off.
#[derive(Clone, Copy)]
pub enum CheckEnd {
    /// There are so many proofs, at least one, and each is a refutation.
    Accepted { proofs: u64 },
    /// A proof is none: its first bad line and the row of it; of line 0 where it has no lines or there is no proof.
    NotAccepted { line: u64, row: Row },
    /// A formula has too many clauses; formulas are counted from 1.
    ClauseLimit { formula: u64 },
}

impl CheckEnd {
    /// The exit status of a check that ended so.
    pub fn status(&self) -> u8
        ensures { result ≡ check_status self.now }
    {
        match self {
            CheckEnd::Accepted { .. } => 0,
            CheckEnd::NotAccepted { .. } => 7,
            CheckEnd::ClauseLimit { .. } => 13,
        }
    }
}

/// How a check ended, and how many proofs were accepted before.
#[derive(Clone, Copy)]
pub struct CheckOver {
    pub end: CheckEnd,
    pub accepted: u64,
}
