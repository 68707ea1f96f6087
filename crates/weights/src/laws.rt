// What clauses weigh: the functions do nothing, and their contracts are the laws.
ghost use Rattle.weights.specs.WeighingLaws.{WeightsFollow, SymbolsWeigh};
ghost use Rattle.weights.specs.Worked.{WorkedWeights, WorkedHints, WorkedHeads};

/// What an application weighs follows from what the terms in it weigh.
#[tactic(auto, using(crate::proofs::Weights::weights_follow))]
pub fn weights_follow()
    ensures { WeightsFollow }
{}

/// Where there are no rules, a clause weighs as much as it has symbols and variables.
#[tactic(auto, using(crate::proofs::Symbols::symbols_weigh))]
pub fn symbols_weigh()
    ensures { SymbolsWeigh }
{}

/// What clauses weigh, by rules and hints.
pub fn worked()
    ensures weights { WorkedWeights }
    ensures hints { WorkedHints }
    ensures heads { WorkedHeads }
{}
