// Laws of derivations: the functions do nothing, and their contracts are the laws.
ghost use Rattle.fol_core.specs.Meaning.{Meaning, IsLawful};
ghost use Rattle.derivation.specs.Apart.{UnifierConcludes, NoneConcludes};
ghost use Rattle.derivation.specs.Laws.{RefutationIsSound, NoneIsWithin, OneConclusion, OneContent, RefusedIsNone, RefusedByOneRow, FaultIsNone, FaultIsOne};
ghost use Rattle.derivation.specs.Worked.{WorkedCopy, WorkedClash, WorkedNoClash, WorkedFactor, WorkedReflexivity, WorkedParamodulation, WorkedNoParamodulation, WorkedLater, WorkedMisfits, WorkedRefutation, WorkedFaults};

/// Where there is a refutation, not all input clauses are true, in any interpretation that has the elements which its lines name.
pub fn refutation_is_sound()
    ensures { (m : Meaning) → IsLawful m → RefutationIsSound m }
{}

/// Lines whose clauses name no element name none that an interpretation hasn't.
pub fn lines_without_elements()
    ensures { NoneIsWithin }
{}

/// A rule has one conclusion, whatever most general unifier it is made by.
pub fn conclusion_is_one()
    ensures { OneConclusion }
{}

/// A line that is inferred has one content, but for the numbers of its variables, whatever words stand behind the first one.
pub fn content_is_one()
    ensures { OneContent }
{}

/// A line that is refused behind earlier ones is none behind them, and is refused by one row.
pub fn refused_is_none()
    ensures none { RefusedIsNone }
    ensures one { RefusedByOneRow }
{}

/// A most general unifier of parents that are renamed apart, in whatever way, makes the conclusion.
pub fn unifier_concludes()
    ensures made { UnifierConcludes }
    ensures none { NoneConcludes }
{}

/// Lines that have a fault are no refutation, and the fault is one: a line and a row.
pub fn fault_is_one()
    ensures none { FaultIsNone }
    ensures one { FaultIsOne }
{}

/// Steps worked out: one of each word, and a fault of each row.
pub fn worked()
    ensures copy { WorkedCopy }
    ensures clash { WorkedClash }
    ensures no_clash { WorkedNoClash }
    ensures factor { WorkedFactor }
    ensures reflexivity { WorkedReflexivity }
    ensures paramodulation { WorkedParamodulation }
    ensures no_paramodulation { WorkedNoParamodulation }
    ensures later { WorkedLater }
    ensures misfits { WorkedMisfits }
    ensures refutation { WorkedRefutation }
    ensures faults { WorkedFaults }
{}
