// Laws of the tests of an index, and retrievals worked out: the functions do nothing, and their contracts are the laws.
ghost use Rattle.discrim_tree.specs.Laws.{InstancesAreMade, UnifiersAreOfTwo, StepsAreLinear, RepeatsDecide};
ghost use Rattle.discrim_tree.specs.Worked.{WorkedAlike, WorkedEntries, WorkedNodes, WorkedPlaces, WorkedRepeats, WorkedRetrievals, WorkedTries};

/// A term is an instance of another exactly where a substitution makes it of that, and two terms unify exactly where a
/// substitution for each makes them the same. Steps alone tell whether a term is sought, if each occurrence of a variable is a
/// variable of its own; whether it is an instance, the parts at the places of a variable that stands twice tell then.
pub fn tests_are_exact()
    ensures instances { InstancesAreMade }
    ensures unifiers { UnifiersAreOfTwo }
    ensures linear { StepsAreLinear }
    ensures repeats { RepeatsDecide }
{}

/// Retrievals, their tests, entries, nodes, and variables that stand twice.
pub fn worked()
    ensures retrievals { WorkedRetrievals }
    ensures tries { WorkedTries }
    ensures entries { WorkedEntries }
    ensures nodes { WorkedNodes }
    ensures repeats { WorkedRepeats }
    ensures places { WorkedPlaces }
    ensures alike { WorkedAlike }
{}
