// What a prover answers.
ghost use Rattle.std.specs.Prelude.{◌≡◌};
ghost use Rattle.given_clause.specs.States.{reason_of};
ghost use Rattle.prover.specs.Answers.{answer_for, end_of};

use given_clause::Reason;

/// What a search for proofs comes to next.
#[derive(Clone, Copy)]
pub enum ProverAnswer {
    /// One more proof is found, whose last line has this number.
    Proof(u64),
    /// As many proofs as were wanted are found. Each that `run` found was answered before; a given step tells them by its counters.
    Proofs,
    /// No clause waits to be given.
    SosEmpty,
    /// As many clauses are given as are allowed.
    MaxGiven,
    /// As many clauses are kept as are allowed.
    MaxKept,
    /// As many symbols and variables are kept as are allowed.
    MaxMegs,
    /// The time is over, by the clock's first reading and its last.
    MaxSeconds { first: u64, last: u64 },
}

/// How many clauses were given, concluded, kept and too large, and how many proofs were found.
#[derive(Clone, Copy)]
pub struct Counters {
    pub given: u64,
    pub generated: u64,
    pub kept: u64,
    pub large: u64,
    pub proofs: u64,
}

/// The answer of a search that has ended for this reason.
pub fn answer_for(reason: Reason) -> ProverAnswer
    ensures { result ≡ answer_for (reason_of reason) }
{
    match reason {
        Reason::Proved => ProverAnswer::Proofs,
        Reason::Spent => ProverAnswer::SosEmpty,
        Reason::GaveAll => ProverAnswer::MaxGiven,
        Reason::KeptAll => ProverAnswer::MaxKept,
        Reason::Filled => ProverAnswer::MaxMegs,
    }
}

/// The answer as an end: behind a proof the search goes on.
pub fn end_of(answer: ProverAnswer) -> Option<ProverAnswer>
    ensures { result ≡ end_of answer }
{
    match answer {
        ProverAnswer::Proof(_) => None,
        _ => Some(answer),
    }
}
