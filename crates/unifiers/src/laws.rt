// Laws of unifiers and matches: the functions do nothing, and their contracts are the laws.
ghost use Rattle.unifiers.specs.Laws.{FindsMostGeneral, FindsWhatIsThere, ConclusionsAgree, MatchesMake, MatchesAreFound};
ghost use Rattle.unifiers.specs.Worked.{WorkedUnifiers, WorkedMatches};

/// The unifier that is found is most general, and where none is found there is none.
pub fn unifiers_are_found()
    ensures general { FindsMostGeneral }
    ensures there { FindsWhatIsThere }
{}

/// A numbered conclusion depends neither on the most general unifier nor on how the parents were renamed.
pub fn conclusions_agree()
    ensures { ConclusionsAgree }
{}

/// A match makes of the first term the second, and is found where one is there.
pub fn matches_are_found()
    ensures make { MatchesMake }
    ensures found { MatchesAreFound }
{}

/// Some terms worked out.
pub fn worked()
    ensures unifiers { WorkedUnifiers }
    ensures matches { WorkedMatches }
{}
