// Laws of lines and of their ancestors: the functions do nothing, and their contracts are the laws.
ghost use Rattle.clause_store.specs.Laws.{AncestorsAreOne, AncestorsDerive, AncestorsRefute, AncestorsStay, LinesMean, LinesStay};
ghost use Rattle.clause_store.specs.Worked.{WorkedParents, WorkedAncestors};

/// The lines that a line of a derivation rests on are a derivation, and those of the empty clause a refutation.
pub fn ancestors_derive()
    ensures derive { AncestorsDerive }
    ensures refute { AncestorsRefute }
{}

/// A line rests on the same lines, whatever test tells them, and where lines come behind.
pub fn ancestors_are_one()
    ensures one { AncestorsAreOne }
    ensures stay { AncestorsStay }
{}

/// A line that is taken out says what it says in a derivation, and lines that are kept stay as they are where the bank
/// grows.
pub fn lines_say_the_same()
    ensures mean { LinesMean }
    ensures stay { LinesStay }
{}

/// Parents and ancestors worked out.
pub fn worked()
    ensures parents { WorkedParents }
    ensures ancestors { WorkedAncestors }
{}
