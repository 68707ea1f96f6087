// Laws of answers: the functions do nothing, and their contracts are the laws.
ghost use Rattle.answers.specs.AnswerTrees.{LiteralsStay};
ghost use Rattle.answers.specs.Worked.{WorkedNumbers, WorkedOnce, WorkedSizes, WorkedTerms};

/// Answers leave the numbers of a clause's literals as they are.
pub fn literals_stay()
    ensures { LiteralsStay }
{}

/// Some answers worked out.
pub fn worked()
    ensures terms { WorkedTerms }
    ensures once { WorkedOnce }
    ensures numbers { WorkedNumbers }
    ensures sizes { WorkedSizes }
{}
