// Answers worked out: the function does nothing, and its contract is the example.
ghost use Rattle.prover.specs.Worked.{WorkedAnswers, WorkedGivenSteps, WorkedReadings};

/// A search that finds two proofs answers each of them, and then that there are as many as were wanted; a given step goes on until
/// what was concluded is processed; and how often the clock is read.
pub fn worked()
    ensures answers { WorkedAnswers }
    ensures steps { WorkedGivenSteps }
    ensures readings { WorkedReadings }
{}
