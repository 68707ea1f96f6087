// Classes worked out.
ghost use Rattle.term_unifiers.specs.Worked.{WorkedTrees, WorkedTerms, WorkedMeasures, WorkedClauses, WorkedNumbers};

/// Nodes have trees, classes the terms of their schemas, terms sizes and levels, and variables numbers.
pub fn worked()
    ensures trees { WorkedTrees }
    ensures terms { WorkedTerms }
    ensures measures { WorkedMeasures }
    ensures clauses { WorkedClauses }
    ensures numbers { WorkedNumbers }
{}
