// Clauses on shared terms worked out.
ghost use Rattle.shared_clauses.specs.Worked.{WorkedClause};

/// Literals have their atoms by numbers, two of them perhaps one; so do variables that are bound.
pub fn worked()
    ensures { WorkedClause }
{}
