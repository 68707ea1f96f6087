// Laws of substitution, numbering and replacement: the functions do nothing, and their contracts are the laws.
ghost use Rattle.fol_core.specs.Meaning.{Meaning};
ghost use Rattle.substitutions.specs.Apart.{InterleavingIsApart};
ghost use Rattle.substitutions.specs.Laws.{InstancesHaveValues, InstancesHaveTruth, ReplacingKeepsValues, NumberingKeepsTruth, SubstitutionsCompose, VariablesDecide, NumbersStay, MutualInstancesAreVariants};
ghost use Rattle.substitutions.specs.Worked.{WorkedPaths, WorkedSubstitutions, WorkedNumbers};

/// What an instance denotes and whether it is true is what the term denotes, and whether the clause is true, under the
/// changed assignment.
pub fn instances_have_truth()
    ensures values { (m : Meaning) → InstancesHaveValues m }
    ensures truth { (m : Meaning) → InstancesHaveTruth m }
{}

/// A term keeps its value where a subterm gets another of its value.
pub fn replacing_keeps_values()
    ensures { (m : Meaning) → ReplacingKeepsValues m }
{}

/// A clause says the same with its variables numbered anew.
pub fn numbering_keeps_truth()
    ensures { (m : Meaning) → NumberingKeepsTruth m }
{}

/// Substitutions compose, the variables of a term decide what they make of it, and numbering tells variants.
pub fn clauses_are_decided()
    ensures compose { SubstitutionsCompose }
    ensures variables { VariablesDecide }
    ensures numbers { NumbersStay }
    ensures variants { MutualInstancesAreVariants }
{}

/// Interleaving the variables of clauses renames them apart: one substitution makes of them what any family, one for each
/// clause, makes of the clauses.
pub fn clauses_are_renamed_apart()
    ensures { InterleavingIsApart }
{}

/// Some terms and clauses worked out.
pub fn worked()
    ensures paths { WorkedPaths }
    ensures substitutions { WorkedSubstitutions }
    ensures numbers { WorkedNumbers }
{}
